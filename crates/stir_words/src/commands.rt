//! The commands, and the table of their options.
ghost use Rattle.std.specs.Prelude.{◌≡◌, map};
ghost use Rattle.stir_words.specs.Seen.{known_of};
ghost use Rattle.stir_words.specs.Table.{command_named, options_of};

/// A command of the program.
#[derive(Clone, Copy, Debug, PartialEq, Eq)]
pub(crate) enum Command {
    /// Judges the calls of a log.
    Verify,
    /// Judges the calls of a log, each by itself, and says which rules hold.
    Explain,
    /// Says what the provider of signatures is asked.
    Ask,
    /// Signs a call.
    Sign,
    /// Signs the diversion of a call.
    Divert,
    /// Judges a call, and signs its diversion to another number.
    Retarget,
    /// Shows the certificates of a chain.
    Show,
    /// Makes a log, judges it and sums it up.
    Drill,
    /// Claims tickets on one desk.
    Once,
}

/// An option that a command takes: its name, without dashes, and whether it is required.
#[derive(Clone, Copy, Debug)]
pub(crate) struct Row {
    pub(crate) name: &'static str,
    pub(crate) required: bool,
}

/// The file with the chain map.
const CHAINS: Row = Row {
    name: "chains",
    required: true,
};

/// The file with the trust anchors.
const ANCHORS: Row = Row {
    name: "anchors",
    required: true,
};

/// The file with the code table.
const TABLE: Row = Row {
    name: "table",
    required: true,
};

/// The file with the answers of the provider of signatures.
const ANSWERS: Row = Row {
    name: "answers",
    required: true,
};

/// The file with the state of an earlier run.
const STATE: Row = Row {
    name: "state",
    required: false,
};

/// How many seconds old a PASSporT may be.
const PAST: Row = Row {
    name: "past",
    required: false,
};

/// How many seconds the `iat` of a PASSporT may be ahead.
const FUTURE: Row = Row {
    name: "future",
    required: false,
};

/// How many workers judge the calls.
const WORKERS: Row = Row {
    name: "workers",
    required: false,
};

/// The digits of the country.
const COUNTRY: Row = Row {
    name: "country",
    required: false,
};

/// How many digits a national number has.
const NATIONAL: Row = Row {
    name: "national",
    required: false,
};

/// The name of the key.
const KEY: Row = Row {
    name: "key",
    required: true,
};

/// The URI of the key's certificates.
const X5U: Row = Row {
    name: "x5u",
    required: true,
};

/// When it is signed.
const IAT: Row = Row {
    name: "iat",
    required: true,
};

/// The form of the PASSporT.
const FORM: Row = Row {
    name: "form",
    required: true,
};

/// The attestation, with `shaken`.
const ATTEST: Row = Row {
    name: "attest",
    required: false,
};

/// The identifier of the call, with `shaken`.
const ORIGID: Row = Row {
    name: "origid",
    required: false,
};

/// The number that was called before the diversion.
const EARLIER: Row = Row {
    name: "earlier",
    required: true,
};

/// The request URI of the message that goes on.
const TARGET: Row = Row {
    name: "target",
    required: true,
};

/// When the call came.
const MOMENT: Row = Row {
    name: "moment",
    required: true,
};

/// The file with the certificate of the holder of the key.
const LEAF: Row = Row {
    name: "leaf",
    required: false,
};

/// The same, if it is required.
const OWN_LEAF: Row = Row {
    name: "leaf",
    required: true,
};

/// The file with the code table of the holder of the key.
const HOLDER: Row = Row {
    name: "table",
    required: false,
};

/// The seed of a drill's log.
const SEED: Row = Row {
    name: "seed",
    required: true,
};

/// How many calls a drill's log has.
const COUNT: Row = Row {
    name: "count",
    required: true,
};

/// How many slots a level of a desk has.
const SIZE: Row = Row {
    name: "size",
    required: true,
};

/// The options of `verify`.
const VERIFYING: [Row; 10] = [
    CHAINS, ANCHORS, TABLE, ANSWERS, STATE, WORKERS, PAST, FUTURE, COUNTRY, NATIONAL,
];

/// The options of `explain`.
const JUDGING: [Row; 8] = [
    CHAINS, ANCHORS, TABLE, ANSWERS, PAST, FUTURE, COUNTRY, NATIONAL,
];

/// The options of `ask`.
const ASKING: [Row; 7] = [CHAINS, ANCHORS, TABLE, PAST, FUTURE, COUNTRY, NATIONAL];

/// The options of `sign`.
const SIGNING: [Row; 11] = [
    FORM, ATTEST, ORIGID, KEY, X5U, IAT, ANSWERS, LEAF, HOLDER, COUNTRY, NATIONAL,
];

/// The options of `divert`.
const DIVERTING: [Row; 9] = [
    EARLIER, KEY, X5U, IAT, ANSWERS, LEAF, HOLDER, COUNTRY, NATIONAL,
];

/// The options of `retarget`.
const RETARGETING: [Row; 14] = [
    CHAINS, ANCHORS, TABLE, ANSWERS, KEY, X5U, IAT, TARGET, OWN_LEAF, MOMENT, PAST, FUTURE,
    COUNTRY, NATIONAL,
];

/// The options of `drill`.
const DRILLING: [Row; 3] = [SEED, COUNT, WORKERS];

/// The options of `once`.
const CLAIMING: [Row; 2] = [SIZE, WORKERS];

impl Command {
    /// The command of that name.
    pub(crate) fn named(name: &str) -> Option<Command>
        ensures { result ≡ command_named name.now }
    {
        match name {
            "verify" => Some(Command::Verify),
            "explain" => Some(Command::Explain),
            "ask" => Some(Command::Ask),
            "sign" => Some(Command::Sign),
            "divert" => Some(Command::Divert),
            "retarget" => Some(Command::Retarget),
            "show" => Some(Command::Show),
            "drill" => Some(Command::Drill),
            "once" => Some(Command::Once),
            _ => None,
        }
    }

    /// The options that the command takes.
    pub(crate) fn options(self) -> &'static [Row]
        ensures { map known_of result.now ≡ options_of self }
    {
        match self {
            Command::Verify => &VERIFYING,
            Command::Explain => &JUDGING,
            Command::Ask => &ASKING,
            Command::Sign => &SIGNING,
            Command::Divert => &DIVERTING,
            Command::Retarget => &RETARGETING,
            Command::Show => &[],
            Command::Drill => &DRILLING,
            Command::Once => &CLAIMING,
        }
    }
}
