// A brace group of the script taken in one step: judged, its names given slots, the room tested in the definition's order, and then built. Where it fails,
// nothing has changed but words of the dictionary past its names.
#![tactic(auto)]

ghost use Rattle.std.specs.Prelude.{◌≡◌, Ok};
ghost use Rattle.groups.specs.Parsing.{JudgedAs};
ghost use Rattle.group_taking.specs.declared.GroupError.TheVariants.{Misread};
ghost use Rattle.group_taking.specs.Taking.{Opened, TakesGroup, counted, ReadyGroup, ConstructsGroup};

use groups::Judged;
use machine::{ITEM_PAYLOAD, Machine, TAG_NULL, TAG_PROCEDURE};
use semantics::{Error, Fault, STACK_WIDTH};

// Why a group was not taken: the error of the test of room, and the offset after the group, since a handled error counts the group as taken; or what is wrong
// with the group's text.
#[derive(Clone, Copy, PartialEq, Eq, Debug)]
pub enum GroupError {
    Failed(Error, usize),
    Misread(Fault),
}

impl From<Fault> for GroupError {
    ghost from_gives = { λ f e. e ≡ Misread f };

    fn from(f: Fault) -> GroupError {
        GroupError::Misread(f)
    }
}

// The group whose opening brace is before `from` is pushed: the machine then, and the offset after the group. Braces nest at most 16 deep, so 15 levels are left inside.
// Ruled out: VMerror where the dictionary is full too; the cells of inner groups and strings left out of the test of room.
// It stays a call of its own, whose answer stays in memory: `grouped` of step reads it there.
#[inline(never)]
pub fn take_group(
    m: Machine,
    stack: &mut [u32],
    dict: &mut [u32],
    cells: &mut [u32],
    script: &[u8],
    from: usize,
) -> Result<(Machine, usize), GroupError>
    requires { Opened script.now from m stack.old dict.old cells.old }
    ensures { TakesGroup script.now from m stack.old stack.new dict.old dict.new cells.old cells.new result }
{
    let judged = groups::judge(script, from, 15)?;
    match take_judged(m, stack, dict, cells, script, from, judged) {
        Ok(r) => Ok((r, judged.next)),
        Err(e) => Err(GroupError::Failed(e, judged.next)),
    }
}

// The group, which has been judged, is pushed, where there is room: for its names, on the stack and for its cells, in this order.
fn take_judged(
    m: Machine,
    stack: &mut [u32],
    dict: &mut [u32],
    cells: &mut [u32],
    script: &[u8],
    from: usize,
    judged: Judged,
) -> Result<Machine, Error>
    requires opened { Opened script.now from m stack.old dict.old cells.old }
    requires judged { JudgedAs script.now 15 from (Ok judged) }
    ensures { TakesGroup script.now from m stack.old stack.new dict.old dict.new cells.old cells.new (counted judged.next result) }
{
    let with = taking::add_names(m, dict, script, from, judged.next)?;
    m.has_room(stack, 1)?;
    if (elements::free_cells(m, cells) as usize) < judged.size + 1 + judged.wants {
        return Err(Error::VmError);
    }
    Ok(construct(with, stack, dict, cells, script, from, judged.size))
}

// A procedure for the group is made, pushed, marked as read only and filled. Its names have slots, and there is room.
fn construct(
    m: Machine,
    stack: &mut [u32],
    dict: &[u32],
    cells: &mut [u32],
    script: &[u8],
    from: usize,
    size: usize,
) -> Machine
    requires { ReadyGroup script.now from size m stack.old dict.now cells.old }
    ensures { ConstructsGroup script.now from m result stack.old stack.new dict.now cells.old cells.new }
{
    let n = m.depth;
    let deeper = taking::push_words(m, stack, TAG_NULL, 0);
    let made = elements::new_array(deeper, stack, cells, 0, size as u32);
    elements::seal(made, stack, cells, 0);
    stack[STACK_WIDTH * n] = TAG_PROCEDURE;
    let first = group_building::first_cell(cells, stack[STACK_WIDTH * n + ITEM_PAYLOAD], size);
    group_building::build(made, dict, cells, script, from, first, 15).machine
}
