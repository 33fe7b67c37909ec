//! One body for each of the tables among which a plan chooses.

/// Writes out a body once for each case of a choice, with that case's table of factors and classes.
///
/// The tables of the cases may have different numbers of classes, and the classes different types: the
/// body is checked with each. The names between the bars stand for the table and the classes in it.
///
/// ```text
/// each_class!(rule => {
///     Rule::Plain => (&one, &OneClass { len }),
///     Rule::Scheme { .. } => (&two, &SchemeClasses { row, wanted }),
/// } |factors, classes| Board::new(table, factors, classes, None).area())
/// ```
#[macro_export]
macro_rules! each_class {
    ($choice:expr => { $($case:pat => ($table:expr, $known:expr)),+ $(,)? } |$factors:ident, $classes:ident| $body:expr) => {
        match $choice {
            $($case => {
                let $factors = $table;
                let $classes = $known;
                $body
            })+
        }
    };
}
