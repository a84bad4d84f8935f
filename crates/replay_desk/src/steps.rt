//! The rule of a desk, and the kinds of step on it. A desk is made with all words 0. A split and a join load word 0,
//! and change the views of two seats; a join loads it once more, for a look that changes nothing. A claim exchanges the
//! word of its class if it is 0, and else finds it. No step changes a word that isn't 0.
ghost use Rattle.replay_desk.specs.Rule.{Holds};
ghost use Rattle.replay_desk.specs.Steps.{Claims, Looks, both, first_view, left_part, right_part, spent_view};

use crate::view::View;
use atomic_table::{Join, Play, Split, TableRule};

/// Each class has at most one winner. The key is the number of classes.
pub struct OneWinner;

impl TableRule<(), View, u64> for OneWinner {
    ghost holds = { λ classes. Holds classes };

    ghost first = { λ _. first_view };
}

/// A split: a seat gives half of its share to a new one.
pub struct Halves;

impl Split<View> for Halves {
    ghost left = { left_part };

    ghost right = { right_part };
}

/// A join: one seat takes the wins, the losses and the share of another, which is spent.
pub struct Together;

impl Join<View> for Together {
    ghost both = { both };

    ghost spent = { spent_view };
}

/// A look at a word, which changes no word and no view.
pub struct Look;

impl Play<(), View> for Look {
    ghost then = { Looks };
}

/// A claim: the word of a class is exchanged if it is 0, and else found.
pub struct ClaimStep;

impl Play<(), View> for ClaimStep {
    ghost then = { Claims };
}
