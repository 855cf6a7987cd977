// Why a call of a bank is refused. `number_of` in specs/Faults.antt gives each fault its number.
ghost use Rattle.std.specs.Prelude.{◌≡◌};
ghost use Rattle.bank.specs.Faults.{number_of};

#[derive(Clone, Copy, PartialEq, Eq, Debug)]
pub enum BankFault {
    // more conditions than the bank takes, or a literal that speaks of no condition
    Conditions,
    // no set of this number is held
    NoSet,
    // the bank is full, and does not hold the set yet
    Full,
    // the set is wide for the bank: it cannot be kept
    Wide,
    // no world of the set is on this side
    EmptySide,
    // no action, or no sensing step, of this number
    WrongStep,
}

// The number by which users know a fault.
impl From<BankFault> for u16 {
    ghost from_gives = { λ fault number. number ≡ number_of fault };

    fn from(fault: BankFault) -> u16 {
        match fault {
            BankFault::Conditions => 20,
            BankFault::NoSet => 21,
            BankFault::Full => 22,
            BankFault::Wide => 23,
            BankFault::EmptySide => 24,
            BankFault::WrongStep => 25,
        }
    }
}
