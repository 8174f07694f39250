// Primitives that fill the elements of an array while it is built from a brace group. The array is no item of the stack: its elements are body cells, and
// each contract shows the world, so that cells which are held are known to be the same elements afterwards. Nothing is freed. What is made is read only (02, W7).
#![tactic(auto)]

ghost use Rattle.std.specs.Prelude.{◌≡◌, List, ℕ, ◌+◌, ◌*◌, ◌/◌, ◌≤◌, ◌<◌, length};
ghost use Rattle.machine.specs.Rep.{Somewhere};
ghost use Rattle.elements.specs.Elements.{free_cells};
ghost use Rattle.construction.specs.Growth.{SetsPlain, SetsArray, SetsString, SetsObject, SameBut};

use machine::{Machine, TAG_PROCEDURE, TAG_STRING};

// The header of the new object, and the machine that has it.
#[derive(Clone, Copy)]
pub struct Placed {
    pub machine: Machine,
    pub header: u32,
}

// The element that cell c is, null so far, becomes the value of these words, which names no object.
// Ruled out: another element changed; the payload left as it was.
pub fn set_plain(cells: &mut [u32], c: u32, tag: u32, pay: u32)
    requires { (tag < 8) × (c * 4 + 4 ≤ length cells.old) }
    ensures { SetsPlain c tag pay cells.old cells.new }
{
    heap::put(cells, c, 0, tag);
    heap::put(cells, c, 1, pay);
}

// The element that cell c is, null so far, becomes a new procedure of n nulls.
// Ruled out: a procedure that no place names; a literal array; one of another length; one that may be written to.
pub fn set_array(m: Machine, cells: &mut [u32], c: u32, n: u32) -> Placed
    requires { (n + 1 ≤ free_cells m cells.old) × (c * 4 + 4 ≤ length cells.old) × ((s : List ℕ) × Somewhere m s cells.old) }
    ensures sets_array { SetsArray c n m cells.old result.machine result.header cells.new }
    ensures same_but { SameBut m result.machine × (free_cells result.machine cells.new + (n + 1) ≡ free_cells m cells.old) }
{
    set_object(m, cells, c, 0, n, TAG_PROCEDURE)
}

// The element that cell c is, null so far, becomes a new string of maximum n, all zeros.
// Ruled out: a last cell that is missing where n is no multiple of 8; bytes left from before; a string that may be written to.
pub fn set_string(m: Machine, cells: &mut [u32], c: u32, n: u32) -> Placed
    requires { ((n + 7) / 8 + 1 ≤ free_cells m cells.old) × (c * 4 + 4 ≤ length cells.old) × ((s : List ℕ) × Somewhere m s cells.old) }
    ensures sets_string { SetsString c n m cells.old result.machine result.header cells.new }
    ensures same_but { SameBut m result.machine × (free_cells result.machine cells.new + ((n + 7) / 8 + 1) ≡ free_cells m cells.old) }
{
    set_object(m, cells, c, n + 1, (n + 7) / 8, TAG_STRING)
}

// The element that cell c is, null so far, becomes a new object of this kind and so many cells. What the tag has to do with the kind is the caller's.
fn set_object(m: Machine, cells: &mut [u32], c: u32, kind: u32, size: u32, tag: u32) -> Placed
    requires { (size + 1 ≤ free_cells m cells.old) × (c * 4 + 4 ≤ length cells.old) × ((s : List ℕ) × Somewhere m s cells.old) }
    ensures sets_object { SetsObject c kind size tag m cells.old result.machine result.header cells.new }
    ensures same_but { SameBut m result.machine × (free_cells result.machine cells.new + (size + 1) ≡ free_cells m cells.old) }
{
    let t = heap::allocate(m.lists, cells, kind, size);
    heap::put(cells, c, 0, tag);
    heap::put(cells, c, 1, t.cell);
    heap::seal(cells, t.cell);
    Placed {
        machine: Machine {
            lists: t.lists,
            ..m
        },
        header: t.cell,
    }
}
