//! Sessions that are made from a load.
ghost use Rattle.std.specs.Prelude.{◌≡◌, IfOk};
ghost use Rattle.session_maker.specs.Laws.{IsLoad};
ghost use Rattle.program_outputs.specs.Outputs.{make_text};

use crate::outputs::Output;
use program_words::Load;
use qws_base::OutOfMemory;
use session_maker::make_script;
use std::alloc::Global;

/// What `make` writes: the script of the load, with status 0.
pub fn make_output(alloc: Global, load: Load) -> Result<Output, OutOfMemory>
    requires { IsLoad load.clients load.calls }
    ensures status { IfOk result (λ output. output.status ≡ 0) }
    ensures text { IfOk result (λ output. output.text.items ≡ make_text load) }
{
    let text = make_script(alloc, u64::from(load.seed), load.clients, load.calls)?;
    Ok(Output { status: 0, text })
}
