// What a map's bytes become, of V0 and V2 alike (docs/RULES.md, "The map"): all old at entry, filler at a block's end, and the
// parts of two in an average. And the greatest byte, by which maps are tested.
#![tactic(auto)]

ghost use Rattle.std.specs.Prelude.{◌≡◌, ◌+◌, ◌^◌, ◌≤◌, ◌<◌, length, replicate};
ghost use Rattle.rules.specs.Frame.{change_cells};
ghost use Rattle.rules.specs.Map.{with_filler, either_part};
ghost use Rattle.frame_map.specs.Greatest.{greatest, greatest_by};

// The bytes of a block.
const BLOCK: usize = 16;

// Sets every byte of a map to `byte`.
pub fn mark_all(map: &mut [u8], byte: u8)
    ensures { map.new ≡ replicate (length map.old) byte }
{
    map.fill(byte);
}

// At entry every sample rests on an old value.
pub fn mark_old(map: &mut [u8])
    ensures { map.new ≡ replicate (length map.old) 1 }
{
    mark_all(map, 1);
}

// A block from a place on ends with filler: its bytes, as far as there are any, gain 2.
pub fn fill_block(map: &mut [u8], place: usize)
    requires { place + 16 < 2 ^ 64 }
    ensures { map.new ≡ change_cells with_filler 0 16 place map.old }
{
    if place + BLOCK <= map.len() {
        fill_whole(map, place);
        return;
    }
    fill_edge(map, place);
}

// A block whose bytes are all there: with no test for each the compiler takes them at once.
fn fill_whole(map: &mut [u8], place: usize)
    requires { place + 16 ≤ length map.old }
    ensures { map.new ≡ change_cells with_filler 0 16 place map.old }
{
    for i in 0..BLOCK {
        map[place + i] = map[place + i] % 2 + 2;
    }
}

// A block at the map's end.
fn fill_edge(map: &mut [u8], place: usize)
    requires { place + 16 < 2 ^ 64 }
    ensures { map.new ≡ change_cells with_filler 0 16 place map.old }
{
    for k in 0..BLOCK {
        fill_byte(map, place + k);
    }
}

// A byte of a block at the map's end gains 2, if it is there.
fn fill_byte(map: &mut [u8], place: usize)
    ensures { map.new ≡ change_cells with_filler 0 1 place map.old }
{
    if place < map.len() {
        map[place] = map[place] % 2 + 2;
    }
}

// Returns the mark of an average of two samples: it has each part that one of their marks has.
pub fn either_part(a: u8, b: u8) -> u8
    ensures { result ≡ either_part a b }
{
    a | b
}

// The greatest of a list and of `least`. A loop that never leaves early can take many at once.
pub fn greatest<T: Ord + Copy>(list: &[T], least: T) -> T
    ensures { result ≡ greatest_by T.cmp least list.now }
{
    let mut most = least;
    for x in list {
        most = most.max(*x);
    }
    most
}

// The greatest byte, or 0.
pub fn greatest_of(map: &[u8]) -> u8
    ensures { result ≡ greatest map.now }
{
    greatest(map, 0)
}
