//! The forms of the program's words.
ghost use Rattle.std.specs.Prelude.{◌≡◌, map, string_bytes};
ghost use Rattle.program_words.specs.Forms.{form_of, load_of};

use crate::options::three_options;

/// What a generated session has: its seed, its number of clients, 1 to 16, and the calls of each client, 1 to 4,096.
#[derive(Clone, Copy, Debug, PartialEq, Eq)]
pub struct Load {
    pub seed: u32,
    pub clients: u32,
    pub calls: u32,
}

/// What the program is asked to do.
#[derive(Clone, Copy, Debug, PartialEq, Eq)]
pub enum Form {
    /// `run`: a script becomes a file.
    Run,
    /// `check`: a script and a file behind it are compared.
    Check,
    /// `make` with a load: its script is written.
    Make { load: Load },
    /// `trial` with a load: its script is made, run and checked.
    Trial { load: Load },
}

// The load of words that are three options, one of each name.
fn load_of_words(words: &[String]) -> Option<Load>
    ensures { result ≡ load_of (map string_bytes words.now) }
{
    let options = three_options(words)?;
    Some(Load {
        seed: options.value(b"--seed", 0, u32::MAX)?,
        clients: options.value(b"--clients", 1, 16)?,
        calls: options.value(b"--calls", 1, 4096)?,
    })
}

/// The form of the words behind the program's name: `run` alone, `check` alone, or `make` or `trial` with the options
/// `--seed` of 0 to 4,294,967,295, `--clients` of 1 to 16 and `--calls` of 1 to 4,096. Each option stands once, in any order,
/// as two words or as one with `=`; a value has 1 to 10 decimal digits. None for any other words. It takes no memory.
pub fn form_of_words(words: &[String]) -> Option<Form>
    ensures { result ≡ form_of (map string_bytes words.now) }
{
    let (first, options) = words.split_first()?;
    match first.as_str() {
        "run" if options.is_empty() => Some(Form::Run),
        "check" if options.is_empty() => Some(Form::Check),
        "make" => Some(Form::Make {
            load: load_of_words(options)?,
        }),
        "trial" => Some(Form::Trial {
            load: load_of_words(options)?,
        }),
        _ => None,
    }
}
