// A rule that the cells of a chip break.
ghost use Rattle.std.specs.Prelude.{◌≡◌};

/// A rule that the cells of one chip of a pair break.
#[derive(Clone, Copy, Debug, PartialEq, Eq)]
pub struct ChipFault {
    /// The chip: 0 is the master, 1 the slave.
    pub chip: u8,
    /// The number of the first rule that fails, 1 to 4.
    pub rule: u8,
}

impl ChipFault {
    ghost use Rattle.dev_pic.specs.Saved.{fault_of};

    /// Returns the fault that the pair's hooks number `rule`.
    ///
    /// The master's rules have their own numbers; the slave's have 10 added.
    pub fn of_rule(rule: u8) -> ChipFault
        ensures { result ≡ fault_of rule }
    {
        if rule <= 10 {
            ChipFault { chip: 0, rule }
        } else {
            ChipFault {
                chip: 1,
                rule: rule - 10,
            }
        }
    }
}
