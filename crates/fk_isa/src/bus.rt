//! What a hart reaches beyond its registers.

use crate::effect::Effect;

/// The memory, the reservations and the devices that harts share.
pub trait Bus {
    ghost use Rattle.std.specs.Prelude.{◌≡◌, ℕ, ◌<◌, ◌*◌, ◌^◌, IfOk};
    ghost use Rattle.fk_isa.specs.Tells.{Tells, Told, IsSize, IsAtomic, ToldStore};

    /// The state of a bus, as far as its answers depend on it.
    ghost State: { Type 0 };

    ghost state: { Self → State };

    /// The number of its harts.
    ghost harts: { Self → ℕ };

    /// Whether the bus can serve a call.
    ghost is_ready: { Self → Type 0 };

    /// What the bus's calls answer and change.
    ghost tells: { Tells State };

    /// What a call keeps of the bus besides its state, such as the lengths of its memories.
    ghost keeps: { Self → Self → Type 0 };

    /// A load of 1, 2 or 4 bytes by a hart. It gives them as a number without sign, or the number
    /// of a trap.
    fn load(&mut self, hart: u32, address: u32, size: u8) -> Result<u32, u8>
        requires hart { hart < harts self.old }
        requires ready { is_ready self.old }
        requires size { IsSize size }
        ensures told { Told (tells.loads (state self.old) hart address size) result (state self.old)
            (state self.new) }
        ensures keeps { keeps self.old self.new }
        ensures fits { IfOk result (λ value. value < 2 ^ (8 * size)) };

    /// A store of the low 1, 2 or 4 bytes of a value by a hart. It gives its effect, or the number
    /// of a trap.
    fn store(&mut self, hart: u32, address: u32, size: u8, value: u32) -> Result<Effect, u8>
        requires hart { hart < harts self.old }
        requires ready { is_ready self.old }
        requires size { IsSize size }
        ensures told { ToldStore (tells.stores (state self.old) hart address size value) result
            (state self.old) (state self.new) }
        ensures keeps { keeps self.old self.new };

    /// An atomic instruction of a hart; `what` has the bits 31 to 27 of its word. It gives the
    /// value for rd, or the number of a trap.
    fn atomic(&mut self, hart: u32, address: u32, what: u8, value: u32) -> Result<u32, u8>
        requires hart { hart < harts self.old }
        requires ready { is_ready self.old }
        requires what { IsAtomic what }
        ensures told { Told (tells.atomics (state self.old) hart address what value) result
            (state self.old) (state self.new) }
        ensures keeps { keeps self.old self.new };
}
