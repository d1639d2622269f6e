//! How many lines of calls each client has.
ghost use Rattle.std.specs.Prelude.{◌≡◌, ◌<◌, ◌+◌, nat_lt, true, false, length, slice_index, slice_set, IfOk};
ghost use Rattle.script_lines.specs.Counted.{IsCounted};

use qws_base::OutOfMemory;
use std::alloc::Global;
use std::marker::Model;

/// How many lines of calls each of 16 clients has. Contracts see 16 numbers.
#[derive(Debug, Drop)]
pub struct Counts {
    items: Vec<u32>,
}

impl Model for Counts {
    ghost use Rattle.std.specs.Prelude.{List, ℕ, ◌≡◌, length};

    ghost Value = { List ℕ };

    ghost view = { λ c. c.items.items };

    ghost invariant = { λ c. length c.items.items ≡ 16 };
}

impl Counts {
    ghost use Rattle.std.specs.Prelude.{[]};

    /// No calls yet.
    pub fn new(alloc: Global) -> Result<Counts, OutOfMemory>
        ensures { IfOk result (λ counts. IsCounted counts []) }
    {
        Ok(Counts {
            items: vec![in alloc; 0; 16]?,
        })
    }

    /// One more call of a client, where it has fewer than 65,536. Whether there was room for it.
    pub fn add(&mut self, client: u32) -> bool
        requires { client < 16 }
        ensures sixteen { length self.old ≡ 16 }
        ensures room { result ≡ nat_lt (slice_index self.old client) 65536 }
        ensures more { (result ≡ true) → (self.new ≡ slice_set self.old client (slice_index self.old client + 1)) }
        ensures full { (result ≡ false) → (self.new ≡ self.old) }
    {
        let count = self.items[client as usize];
        if count >= 65536 {
            return false;
        }
        self.items[client as usize] = count + 1;
        true
    }
}
