// The machine, and what begins and ends a section.
ghost use Rattle.std.specs.Prelude.{◌≡◌, ◌≤◌, ◌+◌, ◌<◌, ◌∷◌, [], ◌==◌, length, get_or, OnOk, IfErr, MatchOption};
ghost use Rattle.vms_spec.specs.declared.TheConstants.{LONGEST_NAME};
ghost use Rattle.vms_spec.specs.Lookup.{number_at};
ghost use Rattle.vms_spec.specs.Spelling.{begins_with};
ghost use Rattle.vms_analyze.specs.Wanted.{Foot as TheFoot, Head, Machine, machine_line, section_line};
ghost use Rattle.vms_analyze.specs.Walking.{HasNoMachine, IsInside, IsMachineName, Prints, Walks, left};
ghost use Rattle.vms_analyze.specs.declared.walk.Stop.TheVariants as stops;

use crate::walk::{Stop, Walk};
use byteorder::{BigEndian, ByteOrder};
use itoa::Buffer;
use vms_marks::{CONFIGURATION_FRONT, Foot, Mark};
use vms_spec::LONGEST_NAME;
use vms_words::are_name_bytes;
use vms_write::{configuration, section_head};

impl<'a> Walk<'a> {
    /// Reads a configuration with the name of any machine, if there is one.
    ///
    /// # Errors
    ///
    /// The [`Stop`]: the bytes differ, or memory runs out.
    pub(crate) fn machine(&mut self) -> Result<(), Stop>
        requires { IsInside self.old }
        ensures { Walks (Machine ∷ []) self.old self.new result }
    {
        if !self.has_configuration() {
            return Ok(());
        }
        let Some(name) = self.machine_name() else {
            return Err(Stop::Differs);
        };
        let spelled = configuration(name);
        if !self.begins_with(spelled.as_slice()) {
            return Err(Stop::Differs);
        }
        self.place += spelled.len();
        self.print_machine(name)
    }

    /// Reads the head of a section with any id; the section is open then.
    ///
    /// # Errors
    ///
    /// The [`Stop`]: the bytes differ, or memory runs out.
    pub(crate) fn head(&mut self, name: &str, instance: u32, version: u32) -> Result<(), Stop>
        requires inside { IsInside self.old }
        requires short { length name.now ≤ LONGEST_NAME }
        ensures { Walks (Head name.now instance version ∷ []) self.old self.new result }
    {
        let Some(id) = self.number_behind() else {
            return Err(Stop::Differs);
        };
        let spelled = section_head(id, name.as_bytes(), instance, version);
        if !self.begins_with(spelled.as_slice()) {
            return Err(Stop::Differs);
        }
        self.place += spelled.len();
        self.id = id;
        self.print_section(name, instance, version)
    }

    /// Reads the footer of the open section.
    ///
    /// # Errors
    ///
    /// The [`Stop`]: the bytes differ.
    pub(crate) fn foot(&mut self) -> Result<(), Stop>
        requires { IsInside self.old }
        ensures { Walks (TheFoot ∷ []) self.old self.new result }
    {
        let foot = Foot { id: self.id };
        self.bytes(&foot.bytes())
    }

    // Returns whether the rest of the input begins with `bytes`.
    fn begins_with(&self, bytes: &[u8]) -> bool
        requires { IsInside self.now }
        ensures { result ≡ begins_with bytes.now (left self.now) }
    {
        let rest = &self.input[self.place..];
        rest.len() >= bytes.len() && &rest[..bytes.len()] == bytes
    }

    fn has_configuration(&self) -> bool
        requires { IsInside self.now }
        ensures { result ≡ (get_or (left self.now) 0 0 == 7) }
    {
        let rest = &self.input[self.place..];
        !rest.is_empty() && rest[0] == Mark::Configuration.byte()
    }

    // Returns the number of four bytes after the next byte.
    fn number_behind(&self) -> Option<u32>
        requires { IsInside self.now }
        ensures { MatchOption result (length (left self.now) < 5)
            (λ n. (5 ≤ length (left self.now)) × (n ≡ number_at 4 1 (left self.now))) }
    {
        let rest = &self.input[self.place..];
        if rest.len() < 5 {
            return None;
        }
        Some(BigEndian::read_u32(&rest[1..5]))
    }

    // Returns the name in a configuration, if a machine may have it.
    fn machine_name(&self) -> Option<&'a [u8]>
        requires { IsInside self.now }
        ensures { MatchOption result (HasNoMachine (left self.now))
            (λ name. IsMachineName (left self.now) name.now) }
    {
        let long = self.number_behind()? as usize;
        let rest = &self.input[self.place + CONFIGURATION_FRONT..];
        if long > LONGEST_NAME || rest.len() < long {
            return None;
        }
        let name = &rest[..long];
        if are_name_bytes(name) {
            Some(name)
        } else {
            None
        }
    }

    fn print_machine(&mut self, name: &[u8]) -> Result<(), Stop>
        ensures ok { OnOk result (Prints self.old self.new (machine_line name.now)) }
        ensures err { IfErr result (λ e. e ≡ stops.NoMemory) }
    {
        self.text.extend_from_slice(b"machine ")?;
        self.text.extend_from_slice(name)?;
        self.text.extend_from_slice(b"\n")?;
        Ok(())
    }

    fn print_section(&mut self, name: &str, instance: u32, version: u32) -> Result<(), Stop>
        ensures ok { OnOk result
            (Prints self.old self.new (section_line name.now instance version)) }
        ensures err { IfErr result (λ e. e ≡ stops.NoMemory) }
    {
        let mut digits = Buffer::new();
        self.text.extend_from_slice(b"section ")?;
        self.text.extend_from_slice(name.as_bytes())?;
        self.text.extend_from_slice(b" ")?;
        self.text
            .extend_from_slice(digits.format(instance).as_bytes())?;
        self.text.extend_from_slice(b" v")?;
        self.text
            .extend_from_slice(digits.format(version).as_bytes())?;
        self.text.extend_from_slice(b"\n")?;
        Ok(())
    }
}
