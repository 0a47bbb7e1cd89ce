//! The normal frames are all of one size, and a step changes at most one of them.

ghost use Rattle.std.specs.Prelude.{◌≡◌, ◌+◌, ◌^◌, ◌<◌, ◌≤◌, length, slice_set, true, Some, IfOk, IfSome, if◌then◌else◌};
ghost use Rattle.pef_frames.specs.Pool.{PoolState};
ghost use Rattle.pef_guest.specs.Ready.{IsReadyFor};
ghost use Rattle.pef_guest.specs.Does.{DoesLent};
ghost use Rattle.pef_core.specs.Lent.{frame_needed, LeavesIn};
ghost use Rattle.pef_model.specs.Plan.{IsWithin};
ghost use Rattle.pef_core.specs.Frames.{AimsAtFrame, DoesFrame};
ghost use Rattle.pef_access.specs.Access.{has_place, place_at};
ghost use Rattle.pef_core.specs.Normal.{zero_frames, frame_at, IsPlaceIn};

use crate::at_frame::apply_frame;
use crate::at_guest::with_frame;
use pef_access::place_below;
use pef_frames::NormalFrame;
use pef_guest::{Cpu, Guest};
use pef_model::{Answer, Cmd};
use pef_num::Place;
use pef_seal::Seal;
use std::alloc::{AllocError, Global};
use std::marker::Model;

/// The normal frames of a machine, each of 2^shift bytes.
#[derive(Drop)]
pub struct Normal {
    shift: u8,
    frames: Vec<NormalFrame>,
}

impl Model for Normal {
    ghost use Rattle.pef_core.specs.Normal.{NormalState, AreFrames};

    ghost Value = { NormalState };

    ghost view = { λ n. record { shift = n.shift; frames = n.frames.items } };

    ghost invariant = { λ n. AreFrames (record { shift = n.shift; frames = n.frames.items }) };
}

impl Normal {
    /// So many frames of 2^shift bytes, all zero. Refused where the memory is not to be had.
    pub fn build(alloc: Global, shift: u8, count: u32) -> Result<Normal, AllocError>
        requires shift { IsWithin 8 16 shift }
        ensures { IfOk result (λ normal. normal ≡ zero_frames shift count) }
    {
        let mut frames = Vec::new(alloc);
        for _number in 0..count {
            frames.push(NormalFrame::build(alloc, 1 << shift)?)?;
        }
        Ok(Normal { shift, frames })
    }

    /// How many frames there are.
    pub fn count(&self) -> u32
        ensures { result ≡ length self.now.frames }
    {
        self.frames.len() as u32
    }

    /// A frame, by its number from 0.
    pub fn frame(&self, number: u32) -> &NormalFrame
        requires { number < length self.now.frames }
        ensures value { result.now ≡ frame_at self.now.frames number }
        ensures size { length result.now ≡ 2 ^ self.now.shift }
    {
        &self.frames[number as usize]
    }

    /// The place of a real address, if it has one: it has none where it is no multiple of 8, or past the last frame.
    pub fn place_of(&self, ra: u64) -> Option<Place>
        ensures result { result ≡ (if has_place self.now.shift (length self.now.frames) ra then Some (place_at self.now.shift ra) else None) }
        ensures place { IfSome result (IsPlaceIn self.now) }
    {
        place_below(ra, self.shift, self.count())
    }

    /// A command of a CPU at a guest that goes into one of the frames, by its number from 0.
    pub fn lend<S: Seal>(
        &mut self,
        guest: &mut Guest<S>,
        cpu: &Cpu,
        number: u32,
        cmd: &Cmd,
    ) -> Answer
        requires number { number < length self.old.frames }
        requires shift { guest.old.shift ≡ self.old.shift }
        requires ready { IsReadyFor S.takes cmd.now guest.old cpu.now }
        requires needed { frame_needed guest.old cpu.now.ctx cmd.now ≡ Some number }
        ensures does { (pool : PoolState) → DoesLent S.takes S.stands S.image cmd.now guest.old guest.new cpu.now cpu.now pool pool (Some (record { number = number; bytes = frame_at self.old.frames number })) (frame_at self.new.frames number) result }
        ensures left { LeavesIn guest.old cpu.now cmd.now result (record { number = number; bytes = frame_at self.old.frames number }) (frame_at self.new.frames number) }
        ensures rest { self.new ≡ record self.old { frames = slice_set self.old.frames number (frame_at self.new.frames number) } }
    {
        with_frame(guest, cpu, number, &mut self.frames[number as usize], cmd)
    }

    /// A command of a CPU at one of the frames, by its number from 0.
    pub fn apply(&mut self, cpu: &mut Cpu, number: u32, cmd: &Cmd) -> Answer
        requires number { number < length self.old.frames }
        requires aims { AimsAtFrame cpu.old.ctx cpu.old.lpid cmd.now }
        requires hand { length cpu.old.hand ≡ 2 ^ self.old.shift }
        ensures does { DoesFrame cmd.now cpu.old cpu.new (frame_at self.old.frames number) (frame_at self.new.frames number) result }
        ensures size { length (frame_at self.old.frames number) ≡ 2 ^ self.old.shift }
        ensures rest { self.new ≡ record self.old { frames = slice_set self.old.frames number (frame_at self.new.frames number) } }
    {
        apply_frame(cpu, &mut self.frames[number as usize], cmd)
    }
}
