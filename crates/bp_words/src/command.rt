// The command of the program, for the crate that reads words.
ghost use Rattle.std.specs.Prelude.{◌≡◌, IfOk};
ghost use Rattle.clap.specs.Words.{app_of};
ghost use Rattle.cli_orders.specs.CommandLine.{command_line};

use clap::Command;
use cli_orders::{
    Argument, MOST_CUTS, MOST_LEAF, MOST_SIZE, MOST_STEPS, MOST_VISITS, MOST_WORKERS, Subcommand,
    joined_command,
};
use std::alloc::{AllocError, Global};

// The subcommands.
static SUBCOMMANDS: [Subcommand; 9] = [
    Subcommand {
        name: "solve",
        arguments: &[
            Argument::FileWord("lp"),
            Argument::FileOption("dec"),
            Argument::NumberOption("steps", 0, MOST_STEPS),
            Argument::FileOption("cert"),
            Argument::FileOption("from"),
            Argument::NumberOption("leaf", 1, MOST_LEAF),
            Argument::NumberOption("workers", 1, MOST_WORKERS),
            Argument::NumberOption("order", 0, u64::MAX),
            Argument::NumberOption("cuts", 0, MOST_CUTS),
            Argument::Flag("large"),
            Argument::FileOption("time"),
            Argument::FileOption("gap"),
            Argument::FileOption("log"),
            Argument::FileOption("stop"),
        ],
    },
    Subcommand {
        name: "check",
        arguments: &[
            Argument::FileWord("lp"),
            Argument::FileWord("cert"),
            Argument::FileOption("dec"),
            Argument::NumberOption("visits", 0, MOST_VISITS),
            Argument::Flag("large"),
        ],
    },
    Subcommand {
        name: "show",
        arguments: &[
            Argument::FileWord("lp"),
            Argument::FileOption("dec"),
            Argument::Flag("blocks"),
            Argument::Flag("classes"),
            Argument::Flag("large"),
        ],
    },
    Subcommand {
        name: "gen",
        arguments: &[
            Argument::NumberWord("seed", 0, u64::MAX),
            Argument::NumberWord("size", 1, MOST_SIZE),
            Argument::FileWord("lp"),
            Argument::FileWord("dec"),
        ],
    },
    Subcommand {
        name: "demo",
        arguments: &[
            Argument::NumberWord("seed", 0, u64::MAX),
            Argument::NumberWord("size", 1, MOST_SIZE),
        ],
    },
    Subcommand {
        name: "detect",
        arguments: &[
            Argument::FileWord("lp"),
            Argument::FileWord("rows"),
            Argument::FileWord("dec"),
            Argument::Flag("large"),
        ],
    },
    Subcommand {
        name: "propose",
        arguments: &[
            Argument::FileWord("lp"),
            Argument::FileWord("dec"),
            Argument::Flag("large"),
        ],
    },
    Subcommand {
        name: "merge",
        arguments: &[
            Argument::FileWord("lp"),
            Argument::FileWord("first"),
            Argument::FileWord("second"),
            Argument::FileWord("new"),
            Argument::FileOption("dec"),
            Argument::Flag("large"),
        ],
    },
    Subcommand {
        name: "migrate",
        arguments: &[
            Argument::FileWord("lp"),
            Argument::FileWord("cert"),
            Argument::FileWord("new"),
            Argument::FileOption("dec"),
            Argument::Flag("large"),
        ],
    },
];

/// The command: its subcommands, one of which is required, without help or version words.
pub fn make_command<'a>(alloc: Global) -> Result<Command<'a>, AllocError>
    ensures { IfOk result (λ command. app_of command ≡ command_line) }
{
    joined_command(alloc, &SUBCOMMANDS)
}
