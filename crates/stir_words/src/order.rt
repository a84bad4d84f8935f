//! What a command line orders.
ghost use Rattle.std.specs.Prelude.{◌≡◌, ◌↔◌, ℕ, List, true, Some, IfOk};
ghost use Rattle.std.specs.Option.{option_map};
ghost use Rattle.stir_words.specs.Options.{pairs_of, Options, Pair};
ghost use Rattle.stir_words.specs.Order.{asking_of, claiming_of, drilling_of, judging_of, order_by, order_of};
ghost use Rattle.stir_words.specs.Order.{order_with, settings_of, verifying_of, CanBeSigned, OrderView};
ghost use Rattle.stir_words.specs.Rows.{IsOrdered};
ghost use Rattle.stir_words.specs.Seen.{asking_view, claiming_view, drilling_view, judging_view, order_view};
ghost use Rattle.stir_words.specs.Seen.{settings_view, texts, verifying_view, Orders};
ghost use Rattle.stir_words.specs.Table.{Accepted, Known, accepts};
ghost use Rattle.stir_words.specs.ClapRules.{values_in};

use crate::claiming::Claiming;
use crate::clap_options::parsed;
use crate::commands::Command;
use crate::drilling::Drilling;
use crate::fault::WordsFault;
use crate::options::are_options;
use crate::retargeting::{Retargeting, retargeting_of};
use crate::settings::Settings;
use crate::signing::{Diverting, Signing, diverting_of, signing_of};
use crate::values::{count_of, future_of, local_of, past_of, seed_of, size_of, workers_of};
use crate::verifying::Verifying;
use clap::ArgMatches;
use std::alloc::Global;

/// By what calls are judged: the names of four files, and the settings.
#[derive(Clone, Copy, Debug)]
pub struct Judging<'a> {
    /// The chain map.
    pub chains: &'a str,
    /// The trust anchors.
    pub anchors: &'a str,
    /// The code table.
    pub table: &'a str,
    /// The answers of the provider of signatures.
    pub answers: &'a str,
    /// The settings.
    pub settings: Settings,
}

/// By what the questions are found that the provider of signatures is asked: the names of three files, and the
/// settings.
#[derive(Clone, Copy, Debug)]
pub struct Asking<'a> {
    /// The chain map.
    pub chains: &'a str,
    /// The trust anchors.
    pub anchors: &'a str,
    /// The code table.
    pub table: &'a str,
    /// The settings.
    pub settings: Settings,
}

/// What a command line orders: a command with the values of its options.
#[derive(Clone, Copy, Debug)]
pub enum Order<'a> {
    /// To judge the calls of a log.
    Verify(Verifying<'a>),
    /// To say of each call of a log which rules hold.
    Explain(Judging<'a>),
    /// To say what the provider of signatures is asked.
    Ask(Asking<'a>),
    /// To sign a call.
    Sign(Signing<'a>),
    /// To sign the diversion of a call.
    Divert(Diverting<'a>),
    /// To judge a call, and to sign its diversion to another number.
    Retarget(Retargeting<'a>),
    /// To show the certificates of a chain.
    Show,
    /// To make a log, to judge it and to sum it up.
    Drill(Drilling),
    /// To claim tickets on one desk.
    Once(Claiming),
}

impl<'a> Order<'a> {
    /// What the words after the program's name order, or that they are refused.
    ///
    /// The first word is the name of a command. The others fall into options. An option is `--name=value`, or `--name`
    /// and a next word that is the value and doesn't begin with `-`. No value is empty, and with `=` it is all that
    /// comes after the first `=`. Each is an option of the command, at most once, and all that the command requires are
    /// there.
    ///
    /// `verify` and `explain` require `--chains`, `--anchors`, `--table` and `--answers`, each the name of a file, and
    /// `ask` requires the first three. All three take `--past`, a number of at most 86,400 (60), `--future`, the same
    /// (5), `--country`, 1 to 3 digits (1), and `--national`, a number (10). The last two have to make a
    /// [`Local`](tn_values::Local). `verify` takes `--workers` as well, a number from 1 to 8 (1), and `--state`, the
    /// name of a file. Numbers are decimal digits without a leading zero. `show` takes no option. `drill` requires
    /// `--seed`, a number below 2^64, and `--count`, a number of at most 100,000, and takes `--workers`. `once`
    /// requires `--size`, a number from 1 to 1,048,576, and takes `--workers`.
    ///
    /// `sign` and `divert` require `--key`, the name of a key, `--x5u`, the URI of its certificates, `--iat`, a number
    /// of at most 253,402,300,799, and `--answers`, the name of a file. They take `--leaf` and `--table`, the names of
    /// two files that are given together or not at all, `--country` and `--national`. `sign` requires `--form` as well,
    /// which is `base`, `compact` or `shaken`. Exactly with `shaken` come `--attest`, which is `A`, `B` or `C`, and
    /// `--origid`, a UUID in 36 characters. `divert` requires `--earlier`, a telephone number.
    ///
    /// `retarget` requires the four files of `verify`, `--key`, `--x5u`, `--iat`, `--target`, any text, `--leaf`, and
    /// `--moment`, a number of at most 253,402,300,799. It takes `--past`, `--future`, `--country` and `--national`.
    #[tactic(auto, using(crate::proofs::OptionLaws::options_are, crate::proofs::AcceptLaws::accepted_are, crate::proofs::SigningLaws::can_be_signed))]
    pub fn of(alloc: Global, words: &'a [&'a str]) -> Result<Order<'a>, WordsFault>
        ensures exact { Orders (order_of (texts words.now)) result }
        // How words fall into options, and which of them a table accepts.
        ensures options { (list : List (List ℕ)) (pairs : List Pair)
            → (pairs_of list ≡ Some pairs) ↔ Options list pairs }
        ensures accepted { (table : List Known) (pairs : List Pair)
            → (accepts table pairs ≡ true) ↔ Accepted table pairs }
        // The same row by row: what each option says, and what stands there if it isn't given.
        ensures rows { (list : List (List ℕ)) (order : OrderView)
            → (order_of list ≡ Some order) ↔ IsOrdered list order }
        // What is to be signed is as signing takes it for granted.
        ensures valid { IfOk result (λ order. CanBeSigned (order_view order)) }
    {
        Order::read(alloc, words)
    }

    /// What the words order.
    #[tactic(auto, unfolding(crate::specs::Order::order_of))]
    fn read(alloc: Global, words: &'a [&'a str]) -> Result<Order<'a>, WordsFault>
        ensures { Orders (order_of (texts words.now)) result }
    {
        let [name, rest @ ..] = words else {
            return Err(WordsFault::Refused);
        };
        let Some(command) = Command::named(name) else {
            return Err(WordsFault::Refused);
        };
        Order::of_command(alloc, command, rest)
    }

    /// What a command orders with these words.
    #[tactic(auto, using(crate::proofs::OrderLaws::no_options, crate::proofs::OrderLaws::ordered, crate::proofs::OrderLaws::refused))]
    fn of_command(
        alloc: Global,
        command: Command,
        words: &'a [&'a str],
    ) -> Result<Order<'a>, WordsFault>
        ensures { Orders (order_by command (texts words.now)) result }
    {
        if !are_options(words) {
            return Err(WordsFault::Refused);
        }
        match parsed(alloc, command.options(), words) {
            Ok(given) => Order::of_values(command, &given),
            Err(fault) => Err(fault),
        }
    }

    /// What a command orders with these values of its options.
    fn of_values(command: Command, given: &ArgMatches<'a>) -> Result<Order<'a>, WordsFault>
        ensures { Orders (order_with command (values_in given.now)) result }
    {
        match Order::with_values(command, given) {
            Some(order) => Ok(order),
            None => Err(WordsFault::Refused),
        }
    }

    /// The order of a command with these values, if they are of their forms.
    fn with_values(command: Command, given: &ArgMatches<'a>) -> Option<Order<'a>>
        ensures { option_map order_view result ≡ order_with command (values_in given.now) }
    {
        match command {
            Command::Verify => match verifying_of(given) {
                Some(verifying) => Some(Order::Verify(verifying)),
                None => None,
            },
            Command::Explain => match judging_of(given) {
                Some(judging) => Some(Order::Explain(judging)),
                None => None,
            },
            Command::Ask => match asking_of(given) {
                Some(asking) => Some(Order::Ask(asking)),
                None => None,
            },
            Command::Sign => match signing_of(given) {
                Some(signing) => Some(Order::Sign(signing)),
                None => None,
            },
            Command::Divert => match diverting_of(given) {
                Some(diverting) => Some(Order::Divert(diverting)),
                None => None,
            },
            Command::Retarget => match retargeting_of(given) {
                Some(retargeting) => Some(Order::Retarget(retargeting)),
                None => None,
            },
            Command::Show => Some(Order::Show),
            Command::Drill => match drilling_of(given) {
                Some(drilling) => Some(Order::Drill(drilling)),
                None => None,
            },
            Command::Once => match claiming_of(given) {
                Some(claiming) => Some(Order::Once(claiming)),
                None => None,
            },
        }
    }
}

/// By what calls are judged: the files, and the settings.
pub(crate) fn judging_of<'a>(given: &ArgMatches<'a>) -> Option<Judging<'a>>
    ensures { option_map judging_view result ≡ judging_of (values_in given.now) }
{
    Some(Judging {
        chains: given.get_str("chains")?,
        anchors: given.get_str("anchors")?,
        table: given.get_str("table")?,
        answers: given.get_str("answers")?,
        settings: settings_of(given)?,
    })
}

/// How the calls of a log are judged: by what, from which state on, and the workers.
fn verifying_of<'a>(given: &ArgMatches<'a>) -> Option<Verifying<'a>>
    ensures { option_map verifying_view result ≡ verifying_of (values_in given.now) }
{
    let Some(judging) = judging_of(given) else {
        return None;
    };
    let Some(workers) = workers_of(given) else {
        return None;
    };
    Some(Verifying {
        judging,
        state: given.get_str("state"),
        workers,
    })
}

/// By what the questions are found: the files, and the settings.
fn asking_of<'a>(given: &ArgMatches<'a>) -> Option<Asking<'a>>
    ensures { option_map asking_view result ≡ asking_of (values_in given.now) }
{
    Some(Asking {
        chains: given.get_str("chains")?,
        anchors: given.get_str("anchors")?,
        table: given.get_str("table")?,
        settings: settings_of(given)?,
    })
}

/// What is made and judged in a drill.
fn drilling_of(given: &ArgMatches<'_>) -> Option<Drilling>
    ensures { option_map drilling_view result ≡ drilling_of (values_in given.now) }
{
    let Some(seed) = seed_of(given) else {
        return None;
    };
    let Some(count) = count_of(given) else {
        return None;
    };
    let Some(workers) = workers_of(given) else {
        return None;
    };
    Some(Drilling {
        seed,
        count,
        workers,
    })
}

/// On what desk tickets are claimed.
fn claiming_of(given: &ArgMatches<'_>) -> Option<Claiming>
    ensures { option_map claiming_view result ≡ claiming_of (values_in given.now) }
{
    let Some(size) = size_of(given) else {
        return None;
    };
    let Some(workers) = workers_of(given) else {
        return None;
    };
    Some(Claiming { size, workers })
}

/// How long a PASSporT is fresh, and the local numbering.
fn settings_of(given: &ArgMatches<'_>) -> Option<Settings>
    ensures { option_map settings_view result ≡ settings_of (values_in given.now) }
{
    Some(Settings {
        past: past_of(given)?,
        future: future_of(given)?,
        local: local_of(given)?,
    })
}
