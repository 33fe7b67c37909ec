//! Items that can be sent.

ghost use Rattle.std.specs.Prelude.{◌≡◌};
ghost use Rattle.walk_model.specs.declared.messages.Letter.{Letter};

use walk_model::Letter;

/// What is sent from one part to another.
pub trait Mail: Drop {
    /// The plain description of an item.
    ghost description: { Self → Letter };

    /// The plain description of this item. It takes no memory.
    fn letter(&self) -> Letter
        ensures { result ≡ description self.now };
}
