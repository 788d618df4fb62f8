// One 8259A and its steps.
ghost use Rattle.std.specs.Prelude.{◌≡◌, ◌<◌, IfSome};
ghost use Rattle.dev_pic.specs.Chip.{level_inputs};

use crate::bits::{but_not, with_input, without_input};
use crate::levels::LTIM_SINCE;
use crate::ocw2::Ocw2;
use crate::winner::{first_ready, highest};
use dev_base::has;

/// The master's input that is connected to the slave's interrupt output.
pub(crate) const CASCADE: u8 = 2;

/// Which of the two chips of a pair.
#[derive(Clone, Copy, Debug, PartialEq, Eq)]
pub(crate) enum Role {
    /// The chip whose output goes to the processor.
    Master,
    /// The chip whose output is an input of the master.
    Slave,
}

impl Role {
    ghost use Rattle.dev_pic.specs.Chip.{elcr_mask as elcr_mask_of};

    /// Returns the inputs whose ELCR bit can be set.
    ///
    /// The others are always edge inputs: timer, keyboard, cascade, clock and coprocessor.
    pub fn elcr_mask(self) -> u8
        ensures { result ≡ elcr_mask_of self }
    {
        match self {
            Role::Master => 0xf8,
            Role::Slave => 0xde,
        }
    }
}

/// Which word a write to the odd port is ("Initialization Command Words (ICWs)").
#[derive(Clone, Copy, Debug, PartialEq, Eq)]
pub(crate) enum InitState {
    /// Initialized; the next word is OCW1, the mask.
    Ready,
    /// The next word is ICW2.
    Icw2,
    /// The next word is ICW3.
    Icw3,
    /// The next word is ICW4.
    Icw4,
}

/// The registers of one 8259A.
#[derive(Clone, Copy, Debug, PartialEq, Eq)]
pub(crate) struct Chip {
    /// Interrupt Request Register.
    pub irr: u8,
    /// In-Service Register.
    pub isr: u8,
    /// Interrupt Mask Register.
    pub imr: u8,
    /// The input lines as they were last updated.
    pub lines: u8,
    /// The input of lowest priority, 7 in fully nested mode.
    pub lowest: u8,
    /// The vector of input 0, from ICW2.
    pub base: u8,
    /// Which word the next write to the odd port is.
    pub init_state: InitState,
    /// Whether ICW1 announced ICW4.
    pub icw4: bool,
    /// Whether ICW1 said that there is no other chip, so that there is no ICW3.
    pub single: bool,
    /// Whether a read of the even port returns ISR instead of IRR (OCW3, RR and RIS).
    pub read_isr: bool,
    /// Whether the next read is a poll (OCW3, P).
    pub poll: bool,
    /// Special mask mode (OCW3, ESMM and SMM).
    pub special_mask: bool,
    /// Automatic end of interrupt (ICW4, AEOI).
    pub auto_eoi: bool,
    /// Rotation in automatic EOI mode (OCW2).
    pub rotate: bool,
    /// Special fully nested mode (ICW4, SFNM).
    pub nested: bool,
    /// Edge/Level Control Register of the chipset: a set bit makes a level input.
    pub elcr: u8,
    /// The level mode (ICW1, LTIM), which makes all inputs level inputs.
    pub ltim: bool,
}

/// Returns the inputs whose request is their line, by the mode `ltim` and the register `elcr`.
#[tactic(auto, unfolding(crate::specs::Chip::level_inputs))]
pub(crate) fn level_inputs_by(ltim: bool, elcr: u8) -> u8
    ensures { result ≡ level_inputs ltim elcr }
{
    if ltim { 0xff } else { elcr }
}

impl Chip {
    ghost use Rattle.dev_pic.specs.Ocw2.{HasInput};
    ghost use Rattle.dev_pic.specs.Chip.{level_inputs_of, in_service_of, served_of, winner_at, taken, settled, commanded, ltim_after, started, selected, written_even, written_odd, after_icw3, elcr_written, read_of, answered, cascaded};

    // Returns the inputs whose request is their line. The others are requested by a rising edge.
    fn level_inputs(&self) -> u8
        ensures { result ≡ level_inputs_of self.now }
    {
        level_inputs_by(self.ltim, self.elcr)
    }

    // Returns what counts as in service for an end of interrupt.
    fn in_service(&self) -> u8
        ensures { result ≡ in_service_of self.now }
    {
        if self.special_mask {
            but_not(self.isr, self.imr)
        } else {
            self.isr
        }
    }

    // Returns what counts as in service for a request.
    #[tactic(auto, unfolding(crate::specs::Chip::served_of))]
    fn served(&self, role: Role) -> u8
        ensures { result ≡ served_of role self.now }
    {
        match role {
            Role::Master if self.nested => without_input(self.in_service(), CASCADE),
            _ => self.in_service(),
        }
    }

    /// Returns the input that is served next. If there is one, the interrupt output (INT) is high.
    #[inline(always)]
    #[tactic(auto, using(crate::proofs::WinnerLaws::nothing_wins), unfolding(crate::specs::Chip::winner_at))]
    pub fn winner(&self, role: Role) -> Option<u8>
        ensures winner { result ≡ winner_at role self.now }
        ensures input { IfSome result (λ winner. winner < 8) }
    {
        let requests = but_not(self.irr, self.imr);
        if requests == 0 {
            return None;
        }
        first_ready(self.lowest, requests, self.served(role))
    }

    /// Takes the input `winner`: its service begins, and an edge input's request ends.
    #[tactic(auto, unfolding(crate::specs::Chip::taken))]
    pub fn take(&mut self, winner: u8)
        requires { winner < 8 }
        ensures { self.new ≡ taken winner self.old }
    {
        if !self.auto_eoi {
            self.isr = with_input(self.isr, winner);
        } else if self.rotate {
            self.lowest = winner;
        }
        if !has(self.level_inputs(), winner) {
            self.irr = without_input(self.irr, winner);
        }
    }

    /// Updates the lines to `inputs`. An input in `edges` has risen since, whatever its level now.
    #[tactic(auto, unfolding(crate::specs::Chip::settled))]
    pub fn settle(&mut self, inputs: u8, edges: u8)
        ensures { self.new ≡ settled inputs edges self.old }
    {
        let rising = but_not(inputs, self.lines) | edges;
        let levels = self.level_inputs();
        self.irr = but_not(self.irr | rising, levels) | (inputs & levels);
        self.lines = inputs;
    }

    // Carries out a command of OCW2.
    #[inline(always)]
    #[tactic(auto, unfolding(crate::specs::Chip::commanded, crate::specs::Chip::ended, crate::specs::Chip::ended_lowest))]
    fn command(&mut self, command: Ocw2)
        requires { HasInput command }
        ensures { self.new ≡ commanded command self.old }
    {
        match command {
            Ocw2::NonSpecificEoi => {
                if let Some(input) = highest(self.lowest, self.in_service()) {
                    self.isr = without_input(self.isr, input);
                }
            }
            Ocw2::RotateOnNonSpecificEoi => {
                if let Some(input) = highest(self.lowest, self.in_service()) {
                    self.isr = without_input(self.isr, input);
                    self.lowest = input;
                }
            }
            Ocw2::SpecificEoi { input } => self.isr = without_input(self.isr, input),
            Ocw2::RotateOnSpecificEoi { input } => {
                self.isr = without_input(self.isr, input);
                self.lowest = input;
            }
            Ocw2::RotateInAutomaticEoi { rotate } => self.rotate = rotate,
            Ocw2::SetPriority { input } => self.lowest = input,
            Ocw2::NoOperation => {}
        }
    }

    // Returns the level mode after ICW1, whose bit 3 has no effect at levels without it.
    fn ltim_after(&self, level: u8, value: u8) -> bool
        ensures { result ≡ ltim_after level value self.now }
    {
        if level >= LTIM_SINCE {
            has(value, 3)
        } else {
            self.ltim
        }
    }

    // Takes ICW1, which begins the initialization.
    #[tactic(auto, unfolding(crate::specs::Chip::started))]
    fn start(&mut self, level: u8, value: u8)
        ensures { self.new ≡ started level value self.old }
    {
        let icw4 = has(value, 0);
        let ltim = self.ltim_after(level, value);
        *self = Chip {
            ltim,
            irr: self.irr & level_inputs_by(ltim, self.elcr),
            isr: 0,
            imr: 0,
            lowest: 7,
            init_state: InitState::Icw2,
            icw4,
            single: has(value, 1),
            read_isr: false,
            poll: false,
            special_mask: false,
            auto_eoi: icw4 && self.auto_eoi,
            rotate: false,
            nested: icw4 && self.nested,
            ..*self
        };
    }

    // Takes OCW3, which selects modes and what a read returns.
    #[tactic(auto, unfolding(crate::specs::Chip::selected))]
    fn select(&mut self, value: u8)
        ensures { self.new ≡ selected value self.old }
    {
        if has(value, 6) {
            self.special_mask = has(value, 5);
        }
        if has(value, 2) {
            self.poll = true;
        }
        if has(value, 1) {
            self.read_isr = has(value, 0);
        }
    }

    /// Writes `value` with A0 low, at `level`: ICW1, OCW2 or OCW3, by bits 4 and 3.
    #[inline(always)]
    #[tactic(auto, unfolding(crate::specs::Chip::written_even))]
    pub fn write_even(&mut self, level: u8, value: u8)
        ensures { self.new ≡ written_even level value self.old }
    {
        if has(value, 4) {
            self.start(level, value);
        } else if has(value, 3) {
            self.select(value);
        } else {
            self.command(Ocw2::of(value));
        }
    }

    // Returns the state after ICW3, or after ICW2 if there is no ICW3.
    fn after_icw3(&self) -> InitState
        ensures { result ≡ after_icw3 self.now }
    {
        if self.icw4 {
            InitState::Icw4
        } else {
            InitState::Ready
        }
    }

    /// Writes `value` with A0 high: OCW1, or the next word of an initialization.
    #[tactic(auto, unfolding(crate::specs::Chip::written_odd_in))]
    pub fn write_odd(&mut self, value: u8)
        ensures { self.new ≡ written_odd value self.old }
    {
        match self.init_state {
            InitState::Ready => self.imr = value,
            InitState::Icw2 => {
                self.base = value - value % 8;
                self.init_state = if self.single {
                    self.after_icw3()
                } else {
                    InitState::Icw3
                };
            }
            InitState::Icw3 => self.init_state = self.after_icw3(),
            InitState::Icw4 => {
                self.auto_eoi = has(value, 1);
                self.nested = has(value, 4);
                self.init_state = InitState::Ready;
            }
        }
    }

    /// Writes `value` to the edge/level register, which keeps the inputs that can be level inputs.
    #[tactic(auto, unfolding(crate::specs::Chip::elcr_written))]
    pub fn write_elcr(&mut self, role: Role, value: u8)
        ensures { self.new ≡ elcr_written role value self.old }
    {
        self.elcr = value & role.elcr_mask();
    }

    /// Reads the odd port if `is_odd`, else the even one.
    ///
    /// After an OCW3 with P the read is a poll ("Poll Command").
    #[tactic(auto, unfolding(crate::specs::Chip::read_of, crate::specs::Chip::polled_by))]
    pub fn read(&mut self, role: Role, is_odd: bool) -> u8
        ensures { (result, self.new) ≡ read_of role is_odd self.old }
    {
        if self.poll {
            let winner = self.winner(role);
            self.poll = false;
            match winner {
                None => 0,
                Some(winner) => {
                    self.take(winner);
                    0x80 + winner
                }
            }
        } else if is_odd {
            self.imr
        } else if self.read_isr {
            self.isr
        } else {
            self.irr
        }
    }

    /// Acknowledges `winner` and returns its vector.
    ///
    /// If there is none, it returns the vector of input 7 ("default IR7").
    #[tactic(auto, unfolding(crate::specs::Chip::answered))]
    pub fn answer(&mut self, winner: Option<u8>) -> u8
        requires { IfSome winner (λ winner. winner < 8) }
        ensures { (result, self.new) ≡ answered winner self.old }
    {
        match winner {
            None => self.base.wrapping_add(7),
            Some(winner) => {
                let vector = self.base.wrapping_add(winner);
                self.take(winner);
                vector
            }
        }
    }

    /// Takes the cascade input of the master, whose remembered line then counts as low.
    #[tactic(auto, unfolding(crate::specs::Chip::cascaded))]
    pub fn take_cascade(&mut self)
        ensures { self.new ≡ cascaded self.old }
    {
        self.take(CASCADE);
        self.lines = without_input(self.lines, CASCADE);
    }
}
