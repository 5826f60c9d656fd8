// What a run may call: the helper functions of its filter.

ghost use Rattle.std.specs.Prelude.{◌≡◌, ◌≤◌, ◌+◌, ◌-◌, length, take, drop, IfSome, Some};
ghost use Rattle.std.specs.Prelude.{None, ◌<◌};
ghost use Rattle.strc_work.specs.Calls.{begun_slots, ended_slots, code_at};

use std::marker::Model;
use strc_work_code::call::Call;
use strc_work_code::code::Code;
use strc_work_code::helper::HelperCode;
use strc_work_meaning::fault::CALL_LIMIT;

/// A filter's helper functions, and how many more calls may be running at once. Contracts see the
/// filter, the helper functions' code, and how many slots fields and calls need.
#[derive(Drop)]
pub struct Calls<'a> {
    code: &'a Code,
    helpers: &'a [HelperCode],
    fields: usize,
    room: usize,
    levels: u32,
}

impl<'a> Model for Calls<'a> {
    ghost use Rattle.std.specs.Coded.{codes};
    ghost use Rattle.strc_parse_tree.specs.contracts.tree.FilterTree as filter_tree;
    ghost use Rattle.strc_work_code.specs.contracts.helper.HelperCode as helper_code;
    ghost use Rattle.strc_work.specs.Calls.{Callable, IsCallable};

    ghost Value = { Callable };

    ghost coded = { Prim.hlevel (codes, filter_tree.the_row.coded, helper_code.the_row.coded) };

    ghost view = { λ c. record {
      tree = c.code.now;
      helpers = c.helpers.now;
      fields = c.fields;
      room = c.room;
      levels = c.levels;
    } };

    ghost invariant = { λ c. IsCallable (record {
      tree = c.code.now;
      helpers = c.helpers.now;
      fields = c.fields;
      room = c.room;
      levels = c.levels;
    }) };
}

impl<'a> Calls<'a> {
    ghost use Rattle.std.specs.Prelude.{◌≡◌, ◌≤◌, ◌-◌, IfSome, Some, None, ◌<◌};
    ghost use Rattle.strc_work_meaning.specs.Firing.{call_limit};
    ghost use Rattle.strc_work_code.specs.Links.{place_of};
    ghost use Rattle.strc_work.specs.Calls.{IsFound, IsRefused, one_level_in, IsCallable, names_in};

    /// The helper functions of a code, none of which is running.
    #[inline]
    pub fn new(code: &'a Code) -> Calls<'a>
        ensures callable { IsCallable result }
        ensures tree { result.tree ≡ code.now }
        ensures levels { result.levels ≡ call_limit }
    {
        let _closed = code.tree();
        Calls {
            code,
            helpers: code.helpers(),
            fields: code.field_count(),
            room: code.call_count(),
            levels: CALL_LIMIT,
        }
    }

    /// The same inside one more call, unless as many are running as may be.
    #[inline]
    pub fn inner(&self) -> Option<Calls<'a>>
        ensures inner { IfSome result (λ inner. inner ≡ one_level_in self.now) }
        ensures some { IfSome result (λ inner. 1 ≤ self.now.levels) }
        ensures none { result ≡ None → self.now.levels ≡ 0 }
    {
        if self.levels == 0 {
            return None;
        }
        Some(Calls {
            code: self.code,
            helpers: self.helpers,
            fields: self.fields,
            room: self.room,
            levels: self.levels - 1,
        })
    }

    /// The code of the helper function that is called, where it has as many parameters as there
    /// are arguments.
    #[inline(always)]
    pub fn helper(&self, call: &Call) -> Option<&'a HelperCode>
        requires linked { call.now.place ≡ place_of (names_in self.now) call.now.name }
        ensures some { IfSome result (λ code. IsFound self.now call.now.name call.now.count
            code.now) }
        ensures none { result ≡ None → IsRefused self.now call.now.name call.now.count }
    {
        let helper = standing_at(self.helpers, call.place)?;
        if helper.parameters != call.count as usize {
            return None;
        }
        Some(helper)
    }

    /// How many slots the fields take.
    #[inline]
    pub fn fields(&self) -> usize
        ensures { result ≡ self.now.fields }
    {
        self.fields
    }

    /// How many slots a call needs at most.
    #[inline]
    pub fn room(&self) -> usize
        ensures { result ≡ self.now.room }
    {
        self.room
    }
}

/// The code that stands at a place.
#[inline(always)]
fn standing_at(helpers: &[HelperCode], place: Option<usize>) -> Option<&HelperCode>
    ensures some { IfSome result (λ code. code_at helpers.now place ≡ Some code.now) }
    ensures none { result ≡ None → code_at helpers.now place ≡ None }
{
    match place {
        Some(place) => helpers.get(place),
        None => None,
    }
}

/// Saves the slots that are no field's, as many as there is room for, and puts the answer and the
/// arguments, so many slots from `first` on, after the fields'.
#[inline]
pub fn begin(slots: &mut [i32], kept: &mut [i32], fields: usize, first: usize, count: usize)
    requires kept { fields + length kept.old ≤ length slots.old }
    requires own { fields + (2 + count) ≤ length slots.old }
    requires arguments { first + count ≤ length slots.old }
    ensures kept { kept.new ≡ take (length kept.old) (drop fields slots.old) }
    ensures slots { slots.new ≡ begun_slots fields (take count (drop first slots.old)) slots.old }
{
    kept.copy_from_slice(&slots[fields..fields + kept.len()]);
    slots.copy_within(first..first + count, fields + 2);
    slots[fields] = 0;
    slots[fields + 1] = 0;
}

/// Puts the slots back that were saved, and the call's value into a slot.
#[inline]
pub fn end(slots: &mut [i32], kept: &[i32], fields: usize, into: usize)
    requires kept { fields + length kept.now ≤ length slots.old }
    requires answer { fields + 1 < length slots.old }
    requires into { into < length slots.old }
    ensures { slots.new ≡ ended_slots fields into kept.now slots.old }
{
    let value = slots[fields + 1];
    slots[fields..fields + kept.len()].copy_from_slice(kept);
    slots[into] = value;
}
