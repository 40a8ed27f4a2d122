ghost use Rattle.std.specs.Prelude.{◌≡◌};
ghost use Rattle.dsedge_base.specs.CommandLine.{dsedge, program};
ghost use Rattle.dsedge_base.specs.CommandTable.{with_commands};

/// How a command is given one of its texts.
#[derive(Clone, Copy)]
pub(crate) enum Form {
    /// By a word that has to be there.
    Word,
    /// By an option that has to be there.
    Needed,
    /// By an option that may be left out.
    Choice,
    /// By a word that may be left out.
    Maybe,
    /// By an option without a text.
    Flag,
}

/// A word or an option of a command.
pub(crate) struct ArgumentEntry {
    pub(crate) form: Form,
    pub(crate) name: &'static str,
    /// What stands for its text in the help.
    pub(crate) value: &'static str,
    pub(crate) help: &'static str,
}

/// A command of `dsedge`, with its words and options in the order of the help.
pub(crate) struct CommandEntry {
    pub(crate) name: &'static str,
    pub(crate) about: &'static str,
    pub(crate) arguments: &'static [ArgumentEntry],
}

/// The word of each command that reads a domain.
const DOMAIN: ArgumentEntry = ArgumentEntry {
    form: Form::Word,
    name: "domain",
    value: "DOMAIN",
    help: "the domain: a TOML text of meters, ports, links and contracts",
};

/// The word of each command that reads a certificate.
const CERTIFICATE: ArgumentEntry = ArgumentEntry {
    form: Form::Word,
    name: "certificate",
    value: "CERTIFICATE",
    help: "the certificate of its contracts, as certify prints one",
};

/// The option of each command that answers with an object of JSON where that is asked for.
const JSON: ArgumentEntry = ArgumentEntry {
    form: Form::Flag,
    name: "json",
    value: "",
    help: "answers with objects of JSON, each on one line",
};

/// What the help says of `arrivals`.
const ARRIVALS_ABOUT: &str =
    "Prints the packets of the capture on standard input: lines MOMENT SIZE, as envelope reads them.";

/// What the help says of `mark`.
const MARK_ABOUT: &str =
    "Marks the capture on standard input by the meters that its packets pass, and reports on standard error.";

/// The commands of `dsedge`, in the order of the help.
pub(crate) fn commands() -> &'static [CommandEntry]
    ensures { with_commands program result.now ≡ dsedge }
{
    COMMANDS
}

const COMMANDS: &[CommandEntry] = &[
    CommandEntry {
        name: "meter",
        about: "Meters the arrivals on standard input: lines MOMENT SIZE COLOUR, colour g, y or r.",
        arguments: &[
            ArgumentEntry {
                form: Form::Needed,
                name: "kind",
                value: "KIND",
                help: "the meter: srtcm (RFC 2697), trtcm (RFC 2698) or rfc4115 (RFC 4115)",
            },
            ArgumentEntry {
                form: Form::Needed,
                name: "mode",
                value: "MODE",
                help: "whether it heeds the colour that a packet comes in with: blind or aware",
            },
            ArgumentEntry {
                form: Form::Needed,
                name: "cir",
                value: "RATE",
                help: "committed information rate, in bits per second",
            },
            ArgumentEntry {
                form: Form::Needed,
                name: "cbs",
                value: "BYTES",
                help: "committed burst size",
            },
            ArgumentEntry {
                form: Form::Choice,
                name: "pir",
                value: "RATE",
                help: "peak information rate, in bits per second (trtcm)",
            },
            ArgumentEntry {
                form: Form::Choice,
                name: "pbs",
                value: "BYTES",
                help: "peak burst size (trtcm)",
            },
            ArgumentEntry {
                form: Form::Choice,
                name: "eir",
                value: "RATE",
                help: "excess information rate, in bits per second (rfc4115)",
            },
            ArgumentEntry {
                form: Form::Choice,
                name: "ebs",
                value: "BYTES",
                help: "excess burst size (srtcm, rfc4115)",
            },
            ArgumentEntry {
                form: Form::Choice,
                name: "origin",
                value: "MOMENT",
                help: "when the meter begins with full buckets, in nanoseconds [default: 0]",
            },
            ArgumentEntry {
                form: Form::Flag,
                name: "levels",
                value: "",
                help: "prints COLOUR COMMITTED SECOND: the levels that the packet left in the buckets, in bytes",
            },
            ArgumentEntry {
                form: Form::Flag,
                name: "json",
                value: "",
                help: "prints the accounts as an object of JSON, on one line",
            },
        ],
    },
    CommandEntry {
        name: "envelope",
        about: "Tests whether the packets on standard input, lines MOMENT SIZE, keep an envelope.",
        arguments: &[
            ArgumentEntry {
                form: Form::Needed,
                name: "rate",
                value: "RATE",
                help: "the rate that the packets may keep up, in bits per second",
            },
            ArgumentEntry {
                form: Form::Needed,
                name: "burst",
                value: "BYTES",
                help: "the bytes that they may send beyond it, at any time",
            },
            JSON,
        ],
    },
    CommandEntry {
        name: "certify",
        about: "Prints the least certificate of the contracts of a domain.",
        arguments: &[DOMAIN, JSON],
    },
    CommandEntry {
        name: "check",
        about: "Checks a certificate: accepted, or the first test that fails.",
        arguments: &[DOMAIN, CERTIFICATE, JSON],
    },
    CommandEntry {
        name: "headroom",
        about: "Prints what is taken and what there is at each meter, for each test: METER KIND TAKEN AVAILABLE.",
        arguments: &[DOMAIN, JSON],
    },
    CommandEntry {
        name: "draw",
        about: "Draws the domain for Graphviz (DOT), with what is taken of what there is at each meter.",
        arguments: &[DOMAIN],
    },
    CommandEntry {
        name: "quote",
        about: "Prints the greatest value of a field of a contract that fits beside the others, or how many like it fit.",
        arguments: &[
            DOMAIN,
            ArgumentEntry {
                form: Form::Needed,
                name: "contract",
                value: "NAME",
                help: "the contract",
            },
            ArgumentEntry {
                form: Form::Choice,
                name: "most",
                value: "FIELD",
                help: "the rate or burst of it: cir, cbs, pir, pbs, eir or ebs, as its entry has it",
            },
            ArgumentEntry {
                form: Form::Flag,
                name: "count",
                value: "",
                help: "in place of --most: how many contracts like it fit at most, itself being one of them",
            },
            JSON,
        ],
    },
    CommandEntry {
        name: "export",
        about: "Prints the words that set a device to a meter, what it makes of them, and whether the domain is accepted so.",
        arguments: &[
            DOMAIN,
            ArgumentEntry {
                form: Form::Needed,
                name: "meter",
                value: "NAME",
                help: "the meter",
            },
            ArgumentEntry {
                form: Form::Needed,
                name: "to",
                value: "DEVICE",
                help: "the device: tc (policers of Linux) or dpdk (rte_meter)",
            },
        ],
    },
    CommandEntry {
        name: "audit",
        about: "Judges the run on standard input: lines send CONTRACT PACKET SIZE DSCP MOMENT and visit PACKET MOMENT.",
        arguments: &[DOMAIN, CERTIFICATE, JSON],
    },
    CommandEntry {
        name: "drive",
        about: "Sells a domain's contracts: lines reserve, release, retire, quote, headroom, list and look.",
        arguments: &[
            DOMAIN,
            ArgumentEntry {
                form: Form::Choice,
                name: "book",
                value: "FILE",
                help: "the SQLite file that keeps the book: made where it is not there, else the book goes on",
            },
            ArgumentEntry {
                form: Form::Choice,
                name: "contracts",
                value: "COUNT",
                help: "how many contracts the book holds at most, 1 to 65,536 [default: 4,096]",
            },
            ArgumentEntry {
                form: Form::Choice,
                name: "commands",
                value: "COUNT",
                help: "how many commands the book accepts, 1 to 16,777,216 [default: 65,536]",
            },
            JSON,
        ],
    },
    CommandEntry {
        name: "book",
        about: "Prints the contracts that a book of drive holds: lines ID NAME SINCE UNTIL, as list of drive prints them.",
        arguments: &[
            DOMAIN,
            ArgumentEntry {
                form: Form::Word,
                name: "file",
                value: "FILE",
                help: "the SQLite file of drive --book that keeps the book",
            },
            ArgumentEntry {
                form: Form::Flag,
                name: "to-domain",
                value: "",
                help: "prints a domain text instead, with the contracts that are held",
            },
        ],
    },
    CommandEntry {
        name: "mark",
        about: MARK_ABOUT,
        arguments: &[
            DOMAIN,
            CERTIFICATE,
            ArgumentEntry {
                form: Form::Needed,
                name: "port",
                value: "PORT",
                help: "the port that the frames come in at",
            },
            ArgumentEntry {
                form: Form::Choice,
                name: "workers",
                value: "WORKERS",
                help: "how many workers mark, 1 to 64 [default: as many as gain, at most 4]",
            },
            ArgumentEntry {
                form: Form::Needed,
                name: "red",
                value: "RULE",
                help: "what is done with red frames: keep or drop",
            },
            ArgumentEntry {
                form: Form::Flag,
                name: "verdict",
                value: "",
                help: "ends the report with the verdict on the run behind the capture, as audit tells it",
            },
            JSON,
        ],
    },
    CommandEntry {
        name: "arrivals",
        about: ARRIVALS_ABOUT,
        arguments: &[
            ArgumentEntry {
                form: Form::Maybe,
                name: "domain",
                value: "DOMAIN",
                help: "the domain; where it is left out, every packet whose header can be read is printed",
            },
            ArgumentEntry {
                form: Form::Choice,
                name: "port",
                value: "PORT",
                help: "the port of the domain that the packets come in at: those of its contracts are printed",
            },
            ArgumentEntry {
                form: Form::Choice,
                name: "contract",
                value: "NAME",
                help: "the contract whose packets are printed alone",
            },
            ArgumentEntry {
                form: Form::Flag,
                name: "colours",
                value: "",
                help: "prints MOMENT SIZE COLOUR, as meter reads them, with the colour that a packet comes in with",
            },
        ],
    },
];
