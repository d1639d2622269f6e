//! Where the lines of calls begin.
ghost use Rattle.std.specs.Prelude.{◌≡◌, length, not, IfOk};
ghost use Rattle.std.specs.List.{filter};
ghost use Rattle.script_reader.specs.Places.{is_place_by, starts_by, starts_of};

use qws_base::OutOfMemory;
use std::alloc::Global;
use std::marker::Model;

/// The line of a call: the number of bytes before it, whose it is, and whether it paints.
#[derive(Clone, Copy, Debug, PartialEq, Eq)]
pub struct LinePlace {
    pub start: usize,
    pub client: u32,
    pub paints: bool,
}

/// Where the lines of a client begin. Contracts see a list.
#[derive(Debug, Drop)]
pub struct Starts {
    items: Vec<usize>,
}

impl Model for Starts {
    ghost use Rattle.std.specs.Prelude.{List, ℕ};

    ghost Value = { List ℕ };

    ghost view = { λ s. s.items.items };
}

impl Starts {
    ghost use Rattle.std.specs.Prelude.{◌≡◌, ◌<◌, length, slice_index};

    /// Where the client's line `k` begins.
    pub fn at(&self, k: u64) -> usize
        requires { k < length self.now }
        ensures { result ≡ slice_index self.now k }
    {
        self.items[k as usize]
    }
}

/// How many lines of a client give a command.
pub fn step_places(places: &[LinePlace], client: u32) -> u64
    ensures { result ≡ length (filter (λ place. not place.paints) (filter (is_place_by client) places.now)) }
{
    let lines = places.iter().filter(|place| place.client == client);
    lines.filter(|place| !place.paints).count() as u64
}

/// How many lines of a client paint.
pub fn paint_places(places: &[LinePlace], client: u32) -> u64
    ensures { result ≡ length (filter (λ place. place.paints) (filter (is_place_by client) places.now)) }
{
    let lines = places.iter().filter(|place| place.client == client);
    lines.filter(|place| place.paints).count() as u64
}

// Where the lines of a client begin. Their number is counted first, so that no more memory is taken than they need.
fn starts_of_client(alloc: Global, places: &[LinePlace], client: u32) -> Result<Starts, OutOfMemory>
    ensures { IfOk result (λ found. found ≡ starts_by places.now client) }
{
    let count = places.iter().filter(|p| p.client == client).count();
    let mut items = Vec::with_capacity(alloc, count)?;
    for place in places {
        if place.client == client {
            items.push(place.start)?;
        }
    }
    Ok(Starts { items })
}

/// Where the lines of each client begin, of so many.
pub fn client_starts(
    alloc: Global,
    places: &[LinePlace],
    clients: u32,
) -> Result<Vec<Starts>, OutOfMemory>
    ensures { IfOk result (λ all. all.items ≡ starts_of clients places.now) }
{
    let mut all = Vec::new(alloc);
    for client in 0..clients {
        all.push(starts_of_client(alloc, places, client)?)?;
    }
    Ok(all)
}
