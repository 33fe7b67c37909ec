//! What holds of every world, whatever happens in it.

ghost use Rattle.std.specs.Prelude.{◌≡◌, [], ◌∷◌, ◌+◌, ◌-◌, ◌<◌, ◌≤◌, ◌++◌, ℕ, List, true, map, sum_by, Some};
ghost use Rattle.walk_model.specs.declared.graph.Edge.{Edge};
ghost use Rattle.walk_model.specs.declared.messages.Found.{Found};
ghost use Rattle.walk_model.specs.declared.messages.Letter.{Letter};
ghost use Rattle.walk_model.specs.declared.messages.Question.{Question};
ghost use Rattle.walk_model.specs.declared.results.Print.{Print};
ghost use Rattle.traveller.specs.declared.modes.Mode.TheVariants.{Fresh, Over};
ghost use Rattle.traveller.specs.PartedRuns.{PartedRun, letters_in};
ghost use Rattle.traveller.specs.Replies.{found_in, hear};
ghost use Rattle.traveller.specs.Turns.{advance};
ghost use Rattle.traveller.specs.Walkers.{Walker, first_walker, question_of, is_ready};
ghost use Rattle.world_law.specs.Crews.{Shift, all_had, all_have, AreRings};
ghost use Rattle.world_law.specs.Events.{Event, May, taken_by, given_by, letter_in, Becomes};
ghost use Rattle.world_law.specs.Finishing.{unfinished, unfinished_of, of_ready, ready_of, of_item, of_kept, walker_prints, prints_so_far, prints_in, steps_of};
ghost use Rattle.world_law.specs.Histories.{Happening, Unrolls, letters_taken, begin_pieces, walk_prints};
ghost use Rattle.world_law.specs.Items.{Item, letter_of};
ghost use Rattle.world_law.specs.LettersAhead.{ahead, count_ahead, count_in, piece_ahead, of_come, of_gone, Begins};
ghost use Rattle.world_law.specs.PartRuns.{HasRowsOf, knowing, part_edges};
ghost use Rattle.world_law.specs.Rounds.{IsRound, Rounded, rounds_before, rounds_after, GoTo, ResideElsewhere};
ghost use Rattle.world_law.specs.Soundness.{of_walker, IsTruePiece, IsSound};
ghost use Rattle.world_law.specs.Truth.{IsTrueTo};
ghost use Rattle.world_law.specs.TurnsOf.{HasStepLeft, TurnOf};
ghost use Rattle.world_law.specs.Worlds.{Piece, Aside, Comes, Goes, ShardData, shard_pieces, WorldData, world_pieces, Each, Same};

/// A walker begins true to its run, and stays so by its turns and by true replies. Each turn comes to a step of
/// its plain walk, to a question whose letter and whose reply's are the next, or to the end of the walk; a turn
/// that leaves it ready leaves it fewer steps. Turns and replies by edges that give a part's rows are those on
/// the whole graph.
pub fn turn_law()
    ensures first { (g : PartedRun) (n : ℕ) → n < g.walkers → IsTrueTo g (first_walker n (g.start n) g.plan.length) }
    ensures turn { (g : PartedRun) (v : Walker) → is_ready v.mode ≡ true → IsTrueTo g v → TurnOf g v (advance g v) }
    ensures holds { (g : PartedRun) (v : Walker) → is_ready v.mode ≡ true → IsTrueTo g v → IsTrueTo g (advance g v) }
    ensures heard { (g : PartedRun) (v : Walker) (q : Question) → IsTrueTo g v → question_of v.mode ≡ Some q
        → IsTrueTo g (hear g v (found_in g.edges q)) }
    ensures left { (g : PartedRun) (v : Walker) → is_ready v.mode ≡ true → HasStepLeft v.state.steps v.length v.mode
        → (advance g v).mode ≡ Fresh → (advance g v).length - (advance g v).state.steps < v.length - v.state.steps }
    ensures part { (g : PartedRun) (k : ℕ) (known : List Edge) (v : Walker) → HasRowsOf g k known → g.owner v.state.at ≡ k
        → advance (knowing g known) v ≡ advance g v }
    ensures part_heard { (g : PartedRun) (k : ℕ) (known : List Edge) (v : Walker) (answer : Found) → HasRowsOf g k known
        → g.owner v.state.at ≡ k → hear (knowing g known) v answer ≡ hear g v answer }
{}

/// The edges from a part's vertices give its rows. What becomes in a part by edges that give its rows becomes so
/// on the whole graph, and keeps a sound world sound with all that stays beside it.
pub fn part_law()
    ensures rows { (g : PartedRun) (k : ℕ) → HasRowsOf g k (part_edges g k) }
    ensures whole { (g : PartedRun) (k : ℕ) (known : List Edge) (before after : List Piece) → HasRowsOf g k known
        → Becomes (knowing g known) k before after → Becomes g k before after }
    ensures sound { (g : PartedRun) (k : ℕ) (before after others : List Piece) → Becomes g k before after
        → IsSound g (before ++ others) → IsSound g (after ++ others) }
{}

/// Each event keeps a sound world sound; the letter that it takes in is the first of those that its walker
/// has not yet taken in, and it takes in no other. A sound world is so in whatever order its pieces stand.
pub fn event_law()
    ensures order { (g : PartedRun) (before after : List Piece) → Same before after → IsSound g before → IsSound g after }
    ensures sound { (g : PartedRun) (k : ℕ) (e : Event) (others : List Piece) → May g k e → IsSound g (taken_by k e ++ others)
        → IsSound g (given_by g k e ++ others) }
    ensures first { (g : PartedRun) (k : ℕ) (e : Event) (others : List Piece) (l : Letter) → May g k e
        → IsSound g (taken_by k e ++ others) → letter_in e ≡ Some l
        → ahead g (taken_by k e ++ others) l.walker ≡ l ∷ ahead g (given_by g k e ++ others) l.walker }
    ensures one { (g : PartedRun) (k i : ℕ) (e : Event) (others : List Piece) → May g k e → IsSound g (taken_by k e ++ others)
        → count_ahead g i (taken_by k e ++ others) ≡ count_ahead g i (given_by g k e ++ others) + count_in i (letter_in e) }
{}

/// In a sound world the letter of each item, set aside or in flight, is the first of those ahead of its walker.
pub fn item_law()
    ensures aside { (g : PartedRun) (k : ℕ) (m : Item) (others : List Piece) → IsSound g (Aside k m ∷ others)
        → Begins (letter_of m) (ahead g (Aside k m ∷ others) (letter_of m).walker) }
    ensures comes { (g : PartedRun) (m : Item) (others : List Piece) → IsSound g (Comes m ∷ others)
        → Begins (letter_of m) (ahead g (Comes m ∷ others) (letter_of m).walker) }
    ensures goes { (g : PartedRun) (m : Item) (others : List Piece) → IsSound g (Goes m ∷ others)
        → Begins (letter_of m) (ahead g (Goes m ∷ others) (letter_of m).walker) }
{}

/// Whatever happens from the beginning on, in whatever order, the world is sound, and the letters that a
/// walker has taken in, followed by those still to come, are the letters of its plain walk.
pub fn history_law()
    ensures sound { (g : PartedRun) (es : List Happening) (after : List Piece) → Unrolls g es (begin_pieces g) after
        → IsSound g after }
    ensures letters { (g : PartedRun) (i : ℕ) (es : List Happening) (after : List Piece) → i < g.walkers
        → Unrolls g es (begin_pieces g) after → letters_taken i es ++ ahead g after i ≡ letters_in g i }
{}

/// In a sound world each walker that is unfinished is a resident that can go on, or has an item. The prints are,
/// each once, the first ones of each walker's plain walk, up to where the walker stands, and all of them where it has
/// finished; where all walkers have, the shards keep the prints of all plain walks.
pub fn finish_law()
    ensures onward { (g : PartedRun) (ps : List Piece) → IsSound g ps
        → sum_by (of_walker unfinished) ps ≤ sum_by of_ready ps + sum_by of_item ps }
    ensures each { (g : PartedRun) (i : ℕ) (ps : List Piece) → IsSound g ps
        → sum_by (of_walker (unfinished_of i)) ps ≤ sum_by (ready_of i) ps + (sum_by (of_come i) ps + sum_by (of_gone i) ps) }
    ensures kept { (g : PartedRun) (ps : List Piece) → IsSound g ps → (f : Print → ℕ)
        → sum_by (of_kept f) ps ≡ sum_by (of_walker (λ v. sum_by f (prints_so_far g v))) ps }
    ensures over { (g : PartedRun) (v : Walker) → IsTrueTo g v → v.mode ≡ Over → prints_so_far g v ≡ walker_prints g v }
    ensures prints { (g : PartedRun) (ps : List Piece) → IsSound g ps → sum_by (of_walker unfinished) ps ≡ 0 → (f : Print → ℕ)
        → sum_by (of_kept f) ps ≡ sum_by f (walk_prints g g.walkers) }
    ensures world { (g : PartedRun) (w : WorldData) → IsSound g (world_pieces w)
        → sum_by (of_walker unfinished) (world_pieces w) ≡ 0 → (f : Print → ℕ)
        → sum_by f (prints_in w.shards) ≡ sum_by f (walk_prints g g.walkers) }
{}

/// What a round gives out: as many letters of a walker as there are fewer that are still to come and have not
/// come. Where its pieces are true, all that it makes of them is.
pub fn round_law()
    ensures holds { (g : PartedRun) (k : ℕ) (before after : List Piece) → Becomes g k before after → Each (IsTruePiece g) before
        → Each (IsTruePiece g) after }
    ensures given { (g : PartedRun) (k i : ℕ) (before after : List Piece) → Becomes g k before after
        → Each (IsTruePiece g) before → sum_by (piece_ahead g i) after + sum_by (of_come i) before
        ≡ sum_by (piece_ahead g i) before + sum_by (of_come i) after }
{}

/// Rounds of several shards, side by side, keep a sound world sound, and give out as many letters of a walker
/// as there are fewer ahead that have not come. After rounds of all shards each unfinished walker has an item. In a
/// sound world whose other residents are of other parts, a round leaves no reply aside.
pub fn rounds_law()
    ensures sound { (g : PartedRun) (rs : List (Rounded g)) (others : List Piece) → IsSound g (rounds_before rs ++ others)
        → IsSound g (rounds_after rs ++ others) }
    ensures given { (g : PartedRun) (i : ℕ) (rs : List (Rounded g)) → Each (IsTruePiece g) (rounds_before rs)
        → sum_by (piece_ahead g i) (rounds_after rs) + sum_by (of_come i) (rounds_before rs)
        ≡ sum_by (piece_ahead g i) (rounds_before rs) + sum_by (of_come i) (rounds_after rs) }
    ensures onward { (g : PartedRun) (i : ℕ) (rs : List (Rounded g)) (held : List Item) → IsSound g (rounds_before rs ++ map Comes held)
        → sum_by (of_walker (unfinished_of i)) (rounds_after rs ++ map Comes held)
        ≤ sum_by (of_come i) (rounds_after rs ++ map Comes held) + sum_by (of_gone i) (rounds_after rs ++ map Comes held) }
    ensures aside { (g : PartedRun) (before after : ShardData) (arrivals out : List Item) (others : List Piece)
        → IsSound g ((shard_pieces before ++ map Comes arrivals) ++ others) → GoTo before.part arrivals
        → ResideElsewhere before.part others → IsRound g before arrivals after out → after.aside ≡ [] }
{}

/// Workers that pass items to one another by rings, in whatever order, hand back a sound world from a sound
/// one. No walker has made fewer steps than before, and the letters that are still to come of it are the last of
/// those that were.
pub fn crew_law()
    ensures sound { (g : PartedRun) (ws : List (Shift g)) (left : List Item) → AreRings ws left → IsSound g (all_had ws)
        → IsSound g (all_have ws ++ map Comes left) }
    ensures ahead { (g : PartedRun) (i : ℕ) (ws : List (Shift g)) (left : List Item) → AreRings ws left → IsSound g (all_had ws)
        → count_ahead g i (all_have ws ++ map Comes left) ≤ count_ahead g i (all_had ws) }
    ensures suffix { (g : PartedRun) (i : ℕ) (ws : List (Shift g)) (left : List Item) → AreRings ws left
        → IsSound g (all_had ws)
        → (taken : List Letter) × (ahead g (all_had ws) i ≡ taken ++ ahead g (all_have ws ++ map Comes left) i) }
    ensures steps { (g : PartedRun) (i : ℕ) (ws : List (Shift g)) (left : List Item) → AreRings ws left
        → sum_by (of_walker (steps_of i)) (all_had ws) ≤ sum_by (of_walker (steps_of i)) (all_have ws ++ map Comes left) }
{}
