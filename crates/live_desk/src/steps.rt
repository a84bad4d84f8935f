//! The rule of a live desk, and the six kinds of step on it.
//!
//! | Kind | Word | View |
//! |---|---|---|
//! | make | all 0 | empty lists, share 1, no step |
//! | split | loads word 0 | the share is halved; the new view has the other half and nothing else |
//! | join | loads word 0 | the one view gains the lists and the share of the other, which is spent |
//! | load | stays | a nonzero word joins what was seen, and a slot whose word is 0 the blanks |
//! | exchange of a 0 | 0 to the code | joins what was set, with the ticket |
//! | exchange of another word | stays | the word joins what was seen |
//!
//! A join loads word 0 once more, for a look that changes no list. Each step on a word is counted in the view of the
//! seat that makes it. A set is made only if the view's sets and seen words have the ticket's codes at all levels
//! before, and other codes at the slots before it (`Ready` of `specs/ClaimSteps`).
ghost use Rattle.live_desk.specs.Views.{Holds};
ghost use Rattle.live_desk.specs.Steps.{Exchanges, Loads, Looks, both, first_view, left_part, right_part, spent_view};

use crate::view::View;
use atomic_table::{Join, Play, Split, TableRule};

/// Each nonzero word was set once, for a ticket whose pieces it stands for. The key is the number of slots of a level.
/// The table has no slots of its own; their type is that of the ticket which a step is told.
pub struct LiveRule;

impl TableRule<[u8; 32], View, u64> for LiveRule {
    ghost holds = { λ size. Holds size };

    ghost first = { λ size. first_view size };
}

/// A split: a seat gives half of its share to a new one.
pub struct Halves;

impl Split<View> for Halves {
    ghost left = { left_part };

    ghost right = { right_part };
}

/// A join: one seat takes all that another has, which is spent.
pub struct Together;

impl Join<View> for Together {
    ghost both = { both };

    ghost spent = { spent_view };
}

/// A look at a word, which changes no word, and of the view the count of steps alone.
pub struct Look;

impl Play<[u8; 32], View> for Look {
    ghost then = { Looks };
}

/// A load of a word.
pub struct Load;

impl Play<[u8; 32], View> for Load {
    ghost then = { Loads };
}

/// An exchange of a word that is 0 for a ticket's code.
pub struct Exchange;

impl Play<[u8; 32], View> for Exchange {
    ghost then = { Exchanges };
}
