//! What a register says.

ghost use Rattle.std.specs.Prelude.{◌≡◌, ◌<◌, true, is_some};
ghost use Rattle.scheduler.specs.Tables.{contracts_of};

use crate::register::Register;
use crate::terms::Contract;
use cells::times::Slot;

impl Register {
    /// The slot.
    pub fn slot(&self) -> Slot
        ensures { result ≡ self.now.slot }
    {
        self.slot
    }

    /// The contract of a party; none of a party above 15.
    pub fn contract(&self, party: u8) -> Option<Contract>
        ensures value { result ≡ contracts_of self.now.contracts party }
        ensures within { is_some result ≡ true → party < 16 }
    {
        *self.contracts.get(party as usize)?
    }

    /// The contract table.
    pub fn contracts(&self) -> &[Option<Contract>; 16]
        ensures { result.now ≡ self.now.contracts }
    {
        &self.contracts
    }
}
