//! The pieces of atomic groups that the two ends of a segment cut.
ghost use Rattle.std.specs.Prelude.{◌≡◌, ◌==◌, ◌++◌, ℕ, [], if◌then◌else◌, OnOk, IfOk};
ghost use Rattle.raft_log_model_laws.specs.Item.Mark.{Begin, Middle};
ghost use Rattle.std.specs.BTreeMap.{get};
ghost use Rattle.std.specs.Ordering.{nat_cmp};
ghost use Rattle.raft_log_model_laws.specs.Fragments.{go_on, then_head};
ghost use Rattle.raft_log_replay_context.specs.Pieces.{
  head_at,
  head_in,
  head_of,
  left_open,
  part_read,
  parts_seen,
  ArePieces,
  CarriesOn,
  EndsGroup,
  HandsOut,
  JoinsPieces,
  PassesOn,
  Reading,
  TakesRecord,
};
ghost use Rattle.raft_log_replay_context.specs.OpenGroups.{all_pushed, without_begun};

use crate::head::{GroupHead, joined};
use crate::open_groups::{OpenGroup, OpenGroups};
use crate::part::GroupPart;
use std::alloc::{AllocError, Global};
use std::collections::BTreeMap;
use std::mem;

/// The pieces of atomic groups that the two ends of a segment cut. They are what the segment does with each group that
/// is open before it, by its number, and the groups that it leaves open, in the order of their begins.
#[derive(Drop)]
pub(crate) struct GroupPieces {
    alloc: Global,
    heads: BTreeMap<u64, GroupHead>,
    left_open: OpenGroups,
}

impl GroupPieces {
    /// The pieces of a segment without records.
    pub(crate) fn new(alloc: Global) -> GroupPieces
        ensures { ArePieces [] result }
    {
        GroupPieces {
            alloc,
            heads: BTreeMap::new(alloc),
            left_open: OpenGroups::new(alloc),
        }
    }

    /// Begins a group. An open one of its number is cut short.
    pub(crate) fn begin(&mut self, number: u64, part: GroupPart) -> Result<(), AllocError>
        ensures { OnOk result (TakesRecord (part_read (Begin number) part) self.old self.new) }
    {
        let mut parts = Vec::new(self.alloc);
        parts.push(part)?;
        self.left_open.push(OpenGroup { number, parts })?;
        self.add_head(number, GroupHead::BeginsAnew)
    }

    /// Continues a group.
    pub(crate) fn go_on(&mut self, number: u64, part: GroupPart) -> Result<(), AllocError>
        ensures { OnOk result (TakesRecord (part_read (Middle number) part) self.old self.new) }
    {
        let Some(part) = self.left_open.go_on(number, part)? else {
            return Ok(());
        };
        let mut parts = Vec::new(self.alloc);
        parts.push(part)?;
        self.add_head(number, GroupHead::GoesOn(parts))
    }

    /// Ends a group. Returns its records, if it began in this segment.
    pub(crate) fn end(
        &mut self,
        number: u64,
        part: GroupPart,
    ) -> Result<Option<Vec<GroupPart>>, AllocError>
        ensures { IfOk result (λ whole. EndsGroup number part self.old self.new whole) }
    {
        let Some(mut group) = self.left_open.take(number) else {
            let mut parts = Vec::new(self.alloc);
            parts.push(part)?;
            self.add_head(number, GroupHead::Ends(parts))?;
            return Ok(None);
        };
        group.parts.push(part)?;
        Ok(Some(group.parts))
    }

    /// Joins the pieces of the next segment. Returns the groups that it ends, in the order of their begins.
    pub(crate) fn merge(&mut self, later: GroupPieces) -> Result<Vec<Vec<GroupPart>>, AllocError>
        ensures { IfOk result (λ done. JoinsPieces self.old later self.new done.items) }
    {
        let GroupPieces {
            mut heads,
            left_open,
            ..
        } = later;
        let done = self.carry_on(&mut heads)?;
        self.leave_open(left_open)?;
        self.add_heads(heads)?;
        Ok(done)
    }

    /// Continues the open groups in the next segment; `heads` has what it does with each. Returns those that it ends,
    /// in the order of their begins.
    fn carry_on(
        &mut self,
        heads: &mut BTreeMap<u64, GroupHead>,
    ) -> Result<Vec<Vec<GroupPart>>, AllocError>
        ensures ok { IfOk result (λ done. CarriesOn self.old (λ φ n. head_in φ (get nat_cmp heads.old n))
            self.new (λ φ n. head_in φ (get nat_cmp heads.new n)) done.items) }
        ensures done { IfOk result (λ done.
            HandsOut self.old (λ φ n. head_in φ (get nat_cmp heads.old n)) done.items) }
        ensures heads { self.new.heads ≡ self.old.heads }
    {
        let open = mem::replace(&mut self.left_open, OpenGroups::new(self.alloc));
        let mut done = Vec::new(self.alloc);
        for group in open.into_groups()? {
            let head = heads.remove(&group.number);
            self.pass(group, head, &mut done)?;
        }
        Ok(done)
    }

    /// Continues an open group in the next segment; `head` is what it does with the group.
    fn pass(
        &mut self,
        group: OpenGroup,
        head: Option<GroupHead>,
        done: &mut Vec<Vec<GroupPart>>,
    ) -> Result<(), AllocError>
        ensures left { OnOk result ((φ : Reading)
            → without_begun group.number self.old.left_open ≡ self.old.left_open
            → left_open φ self.new
            ≡ left_open φ self.old
            ++ go_on group.number (parts_seen φ group.parts.items) (head_in φ head)) }
        ensures done { OnOk result (PassesOn group head done.old.items done.new.items) }
        ensures heads { self.new.heads ≡ self.old.heads }
    {
        match head {
            None => {
                self.left_open.push(group)?;
            }
            Some(GroupHead::GoesOn(more)) => {
                let number = group.number;
                let parts = joined(group.parts, more)?;
                self.left_open.push(OpenGroup { number, parts })?;
            }
            Some(GroupHead::Ends(more)) => {
                done.push(joined(group.parts, more)?)?;
            }
            Some(GroupHead::BeginsAnew) => {}
        }
        Ok(())
    }

    /// Adds the groups that the next segment leaves open.
    fn leave_open(&mut self, later: OpenGroups) -> Result<(), AllocError>
        ensures open { OnOk result (self.new.left_open ≡ all_pushed self.old.left_open later) }
        ensures heads { self.new.heads ≡ self.old.heads }
    {
        for group in later.into_groups()? {
            self.left_open.push(group)?;
        }
        Ok(())
    }

    /// Adds what the next segment does with groups.
    fn add_heads(&mut self, heads: BTreeMap<u64, GroupHead>) -> Result<(), AllocError>
        ensures heads { OnOk result ((φ : Reading) (n : ℕ) → head_at φ self.new n
            ≡ then_head (head_at φ self.old n) (head_in φ (get nat_cmp heads n))) }
        ensures others { self.new.left_open ≡ self.old.left_open }
    {
        let mut heads = heads;
        while let Some((number, head)) = heads.pop_first() {
            self.add_head(number, head)?;
        }
        Ok(())
    }

    /// Adds what the segment does with the group of a number, after what it did so far.
    fn add_head(&mut self, number: u64, later: GroupHead) -> Result<(), AllocError>
        ensures heads { OnOk result ((φ : Reading) (n : ℕ) → head_at φ self.new n
            ≡ (if number == n then then_head (head_at φ self.old n) (head_of φ later)
            else head_at φ self.old n)) }
        ensures others { self.new.left_open ≡ self.old.left_open }
    {
        if let Some(head) = self.heads.get_mut(&number) {
            let so_far = mem::replace(head, GroupHead::BeginsAnew);
            *head = so_far.then(later)?;
            return Ok(());
        }
        self.heads.insert(number, later)?;
        Ok(())
    }
}
