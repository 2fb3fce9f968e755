//! The machine.

ghost use Rattle.std.specs.Prelude.{◌≡◌, ◌+◌, ◌*◌, ◌≤◌, vec_len, vec_capacity};
ghost use Rattle.fk_num.specs.Limits.{most_data_words};

use crate::hart::{TrackedHart, first_harts};
use crate::setting::Setting;
use crate::shared::SharedState;
use crate::stand::Stand;
use crate::turns::{LOCAL_STRIDE, stand_after, take_turns};
use crate::zeros::zeros;
use fk_image::Image;
use fk_isa::{Hart, Instruction};
use fk_ports::{Failed, Sink, give_all};
use std::alloc::{AllocError, Global};

/// A machine that runs an image: its harts, what they share, and its status.
#[derive(Drop)]
pub struct Machine {
    setting: Setting,
    harts: Vec<TrackedHart>,
    /// The local memories of all harts, in the order of their numbers.
    locals: Vec<u32>,
    shared: SharedState,
    stand: Stand,
    ghost some: { 1 ≤ vec_len harts },
    ghost few: { vec_len harts ≤ 1024 },
    ghost counted: { setting.harts ≡ vec_len harts },
    ghost own: { vec_len locals ≡ 32784 * vec_len harts },
    ghost reserved: { vec_len shared.reserved ≡ vec_len harts },
    ghost room: { 12 * vec_len harts ≤ vec_capacity shared.output },
    ghost printed: { vec_len shared.output ≤ 12 * vec_len harts },
}

#[tactic(auto, unfolding(crate::specs::View::machine_of))]
impl Machine {
    ghost use Rattle.std.specs.Prelude.{◌-◌, ◌<◌, ◌^◌, ◌/◌, ◌%◌, ◌==◌, [], Some, None, true};
    ghost use Rattle.std.specs.Prelude.{if◌then◌else◌, length, map, slice_get, slice_index_or};
    ghost use Rattle.std.specs.Prelude.{IfSome, IfOk, OnOk, OnErr};
    ghost use Rattle.std.specs.Option.{option_flatten};
    ghost use Rattle.std.specs.Io.KnownBytes.{append_known};
    ghost use Rattle.fk_ports.specs.Faults.{HasRisen};
    ghost use Rattle.fk_image.specs.Limits.{IsWithinLimits};
    ghost use Rattle.fk_isa.specs.Fits.{Fits};
    ghost use Rattle.fk_isa.specs.Step.{hart_of};
    ghost use Rattle.fk_machine.specs.declared.stand.Stand.TheVariants.{Running};
    ghost use Rattle.fk_machine.specs.Cycle.{machine_opening, cycle, is_running};
    ghost use Rattle.fk_machine.specs.Run.{after, output_in, committed};
    ghost use Rattle.fk_machine.specs.Early.{StoppedEarly};
    ghost use Rattle.fk_machine.specs.Step.{state_of};
    ghost use Rattle.fk_machine.specs.View.{code_of, machine_of};

    /// A machine with `harts` harts before its first cycle. Shared data begins with the globals of
    /// the image, then the input numbers, then zeros.
    ///
    /// It takes all the memory that a run needs: 8 MiB for what is shared and 128 KiB for each
    /// hart, besides its code. If there isn't enough memory, it fails with [`AllocError`].
    pub fn new(
        alloc: Global,
        image: &Image,
        input: &[u32],
        harts: u32,
    ) -> Result<Machine, AllocError>
        requires limits { IsWithinLimits image.now }
        requires some_harts { 1 ≤ harts }
        requires few_harts { harts ≤ 1024 }
        requires few_inputs { length input.now ≤ 65536 }
        requires room { vec_len image.now.globals + length input.now ≤ most_data_words }
        ensures machine { IfOk result
            (λ m. machine_of m ≡ machine_opening image.now input.now harts) }
        ensures code { IfOk result (λ m. code_of m ≡ image.now.code.items) }
    {
        let inputs = input.len() as u32;
        let setting = Setting::new(alloc, &image.code, &image.commits, harts, inputs)?;
        let shared = SharedState::new(alloc, &image.globals, input, harts)?;
        let locals = zeros(alloc, LOCAL_STRIDE as usize * harts as usize)?;
        Ok(Machine {
            setting,
            harts: first_harts(alloc, harts)?,
            locals,
            shared,
            stand: Stand::Running,
        })
    }

    /// Runs one cycle, and gives the status after it. Every hart that has not ended runs one
    /// instruction, in ascending number. A fault or a trap ends the machine at once, and the harts
    /// above are not served. A machine that doesn't run stays as it is. A cycle takes no memory.
    pub fn cycle(&mut self) -> Stand
        requires { (machine_of self.old).begun < 2 ^ 32 - 1 }
        ensures cycle { machine_of self.new ≡ cycle (machine_of self.old) }
        ensures stand { result ≡ (machine_of self.new).stand }
        ensures count { (machine_of self.new).begun ≤ (machine_of self.old).begun + 1 }
        ensures code { code_of self.new ≡ code_of self.old }
    {
        if self.stand != Stand::Running {
            return self.stand;
        }
        self.shared.output.clear();
        self.serve()
    }

    // A cycle of a machine that runs and has no output of the cycle before.
    fn serve(&mut self) -> Stand
        requires running { self.old.stand ≡ Running }
        requires unprinted { self.old.shared.output.items ≡ [] }
        requires count { (machine_of self.old).begun < 2 ^ 32 - 1 }
        ensures cycle { machine_of self.new ≡ cycle (machine_of self.old) }
        ensures stand { result ≡ self.new.stand }
        ensures code { code_of self.new ≡ code_of self.old }
    {
        let mut stop = None;
        take_turns(
            &self.setting,
            0,
            self.harts.as_mut_slice(),
            self.locals.as_mut_slice(),
            &mut self.shared,
            &mut stop,
        );
        self.setting.finished += 1;
        let stand = stand_after(stop, &self.harts);
        self.stand.change_to(stand);
        stand
    }

    // Runs at most `cycles` cycles, and gives how many it has run. It stops after a cycle that
    // prints or ends the machine. As a function of its own, its code doesn't depend on its callers.
    #[inline(never)]
    fn run_quietly(&mut self, cycles: u32) -> u32
        requires running { self.old.stand ≡ Running }
        requires some { 1 ≤ cycles }
        requires count { (machine_of self.old).begun + cycles < 2 ^ 32 }
        ensures machine { machine_of self.new ≡ after result (machine_of self.old) }
        ensures output { output_in result (machine_of self.old) ≡ self.new.shared.output.items }
        ensures quiet { output_in (result - 1) (machine_of self.old) ≡ [] }
        ensures before { is_running (after (result - 1) (machine_of self.old)).stand ≡ true }
        ensures some { 1 ≤ result }
        ensures few { result ≤ cycles }
        ensures code { code_of self.new ≡ code_of self.old }
    {
        self.shared.output.clear();
        for done in 0..cycles {
            let stand = self.serve();
            if stand != Stand::Running || !self.shared.output.is_empty() {
                return done + 1;
            }
        }
        cycles
    }

    // Runs `cycles` cycles, or fewer if the machine ends before, and gives what each prints, in
    // order.
    fn run_for<K: Sink>(&mut self, cycles: u32, out: &mut K) -> Result<(), Failed>
        requires { (machine_of self.old).begun + cycles < 2 ^ 32 }
        ensures machine { OnOk result (machine_of self.new ≡ after cycles (machine_of self.old)) }
        ensures output { OnOk result (K.taken out.new
            ≡ append_known (K.taken out.old) (output_in cycles (machine_of self.old))) }
        ensures early { OnErr result (StoppedEarly cycles (machine_of self.old)
            (machine_of self.new) (K.taken out.old) (K.taken out.new)) }
        ensures fault { OnErr result (HasRisen (K.faults out.old) (K.faults out.new)) }
        ensures steady { OnOk result (K.faults out.new ≡ K.faults out.old) }
        ensures code { code_of self.new ≡ code_of self.old }
    {
        let mut left = cycles;
        while left > 0 && self.stand == Stand::Running {
            left -= self.run_quietly(left);
            give_all(out, &self.shared.output)?;
        }
        Ok(())
    }

    /// Runs until the machine ends or has begun `bound` cycles, and gives its status. After each
    /// cycle it gives what that cycle has printed to `out`. It takes no memory.
    ///
    /// If `out` fails, the cycle whose bytes were being given is the last that the machine has run.
    pub fn run_to<K: Sink>(&mut self, bound: u32, out: &mut K) -> Result<Stand, Failed>
        ensures machine { OnOk result (machine_of self.new
            ≡ after (bound - (machine_of self.old).begun) (machine_of self.old)) }
        ensures stand { IfOk result (λ stand. stand ≡ (machine_of self.new).stand) }
        ensures output { OnOk result (K.taken out.new ≡ append_known (K.taken out.old)
            (output_in (bound - (machine_of self.old).begun) (machine_of self.old))) }
        ensures early { OnErr result (StoppedEarly (bound - (machine_of self.old).begun)
            (machine_of self.old) (machine_of self.new) (K.taken out.old) (K.taken out.new)) }
        ensures fault { OnErr result (HasRisen (K.faults out.old) (K.faults out.new)) }
        ensures steady { OnOk result (K.faults out.new ≡ K.faults out.old) }
        ensures code { code_of self.new ≡ code_of self.old }
    {
        self.run_for(bound.saturating_sub(self.setting.finished), out)?;
        Ok(self.stand)
    }

    /// The bytes printed in the last cycle, at most 12,288. Before the first cycle there are none.
    pub fn output(&self) -> &[u8]
        ensures output { result.now ≡ (machine_of self.now).shared.output }
        ensures few { length result.now ≤ 12288 }
    {
        &self.shared.output
    }

    /// The number of cycles that were begun. The cycle that ended the machine is one of them.
    pub fn cycles(&self) -> u32
        ensures { result ≡ (machine_of self.now).begun }
    {
        self.setting.finished
    }

    /// The number of harts.
    pub fn harts(&self) -> u32
        ensures harts { length (machine_of self.now).harts ≡ result }
        ensures committed { length (committed (machine_of self.now)) ≡ result }
        ensures some { 1 ≤ result }
        ensures few { result ≤ 1024 }
    {
        self.setting.harts
    }

    /// What the hart with this number committed in the last cycle: the count of operations, and the
    /// event. None if it committed nothing, or if there is no such hart.
    pub fn committed(&self, hart: u32) -> Option<(u32, u32)>
        ensures { result ≡ slice_index_or (committed (machine_of self.now)) hart None }
    {
        let index = hart as usize;
        if index < self.harts.len() {
            self.setting.commit_at(self.harts[index].ran?)
        } else {
            None
        }
    }

    /// The status of the machine.
    pub fn stand(&self) -> Stand
        ensures { result ≡ (machine_of self.now).stand }
    {
        self.stand
    }

    /// The word of shared data with this index.
    pub fn word(&self, index: u32) -> u32
        requires { index < 2 ^ 20 }
        ensures { result ≡ (machine_of self.now).shared.words index }
    {
        self.shared.words[index as usize]
    }

    /// The hart with this number.
    #[tactic(auto, unfolding(crate::specs::View::machine_of), using(crate::proofs::Harts::harts_length))]
    pub fn hart(&self, number: u32) -> &Hart
        requires { number < length (machine_of self.now).harts }
        ensures { slice_get (map state_of (machine_of self.now).harts) number
            ≡ Some (hart_of result.now) }
    {
        &self.harts[number as usize].state
    }

    /// The word of the code at an address. There is none if the address is no multiple of 4, or is
    /// past the code.
    pub fn code(&self, address: u32) -> Option<u32>
        ensures { result ≡ (if address % 4 == 0
            then slice_get (code_of self.now) (address / 4) else None) }
    {
        if address % 4 != 0 {
            return None;
        }
        self.setting.words.get((address / 4) as usize).copied()
    }

    /// The instruction that a hart with this pc does next. There is none if it traps because the pc
    /// is past the code, or because the word there is no instruction.
    #[inline(always)]
    #[tactic(auto, unfolding(crate::specs::View::machine_of), using(crate::proofs::Rows::row_there))]
    pub fn instruction(&self, pc: u32) -> Option<Instruction>
        ensures instruction { result
            ≡ option_flatten (slice_get (machine_of self.now).code (pc / 4)) }
        ensures fits { IfSome result Fits }
    {
        self.setting.code.get((pc / 4) as usize)?.row()
    }
}
