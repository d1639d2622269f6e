//! Whole scripts.
ghost use Rattle.std.specs.Prelude.{◌≡◌, ℕ, List, OnOk, IfOk};
ghost use Rattle.script_grammar.specs.Printing.{script_text};
ghost use Rattle.session_maker.specs.Made.{Lines, with_calls, made_session};
ghost use Rattle.session_maker.specs.Laws.{IsLoad};
ghost use Rattle.session_maker.specs.Added.{head_text, AreAdded};

use crate::draws::Draws;
use crate::kinds::push_call;
use qws_base::OutOfMemory;
use std::alloc::Global;

// The lines before the calls.
fn head(alloc: Global, clients: u32) -> Result<Vec<u8>, OutOfMemory>
    ensures { IfOk result (λ out. out.items ≡ head_text clients) }
{
    let text = format!(in alloc;
        "screen 320 240 204060\nclients {clients}\nfont 3\nglyph 65 3 2 7 5\nimage 2 2 ff102030ff405060ff708090ffa0b0c0\n"
    )?;
    let out = text.as_bytes().to_vec(alloc)?;
    Ok(out)
}

// Adds the lines of a client's calls.
fn push_client(
    alloc: Global,
    out: &mut Vec<u8>,
    draws: &mut Draws,
    client: u32,
    calls: u32,
) -> Result<(), OutOfMemory>
    ensures { OnOk result ((head : List ℕ) (lines : Lines) → AreAdded head lines out.old.items draws.old.state → AreAdded head (with_calls client calls lines) out.new.items draws.new.state) }
{
    for k in 0..calls {
        push_call(alloc, out, draws, client, k)?;
    }
    Ok(())
}

/// The script that is made from a seed: 1 to 16 clients with 1 to 4,096 calls each on a screen of 320 x 240. Seed and numbers
/// give each byte; the definition of the session says how. It takes time linear in the script.
pub fn make_script(
    alloc: Global,
    seed: u64,
    clients: u32,
    calls: u32,
) -> Result<Vec<u8>, OutOfMemory>
    requires { IsLoad clients calls }
    ensures { IfOk result (λ bytes. bytes.items ≡ script_text (made_session seed clients calls)) }
{
    let mut out = head(alloc, clients)?;
    let mut draws = Draws { state: seed };
    for client in 0..clients {
        push_client(alloc, &mut out, &mut draws, client, calls)?;
    }
    out.extend_from_slice(b"end\n")?;
    Ok(out)
}
