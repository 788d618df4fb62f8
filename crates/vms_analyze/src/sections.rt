// What a stream has around its elements.
ghost use Rattle.std.specs.Prelude.{◌≡◌, ◌≤◌, ◌∷◌, [], true, length, map, OnOk, IfErr};
ghost use Rattle.std.specs.List.{list_all};
ghost use Rattle.vms_spec.specs.declared.TheConstants.{LONGEST_NAME};
ghost use Rattle.vms_spec.specs.Streams.{sub_head};
ghost use Rattle.vms_analyze.specs.Told.{is_good_device, is_good_sub};
ghost use Rattle.vms_analyze.specs.Wanted.{Bytes, Line, device_wants, kept_line, sent_line, found, start_wants, sub_head_wants, sub_wants, wants};
ghost use Rattle.vms_analyze.specs.Typed.{device_of, devices_wants, sub_of, subs_wants, wants_of_device, wants_of_sub};
ghost use Rattle.vms_analyze.specs.Listing.{listing_of};
ghost use Rattle.vms_analyze.specs.Walking.{AtStart, Goes, IsInside, Prints, Shows, Walks};
ghost use Rattle.vms_analyze.specs.declared.walk.Stop.TheVariants as stops;

use crate::told::{Device, Sub};
use crate::walk::{Sought, Stop, Walk};
use itoa::Buffer;
use vms_marks::Mark;
use vms_write::sub_head;

impl Sought for Device<'_> {
    ghost wants = { wants_of_device };

    ghost is_good = { λ d. is_good_device (device_of d) };

    fn seek(&self, walk: &mut Walk) -> Result<(), Stop> {
        walk.device(self)
    }
}

impl Sought for Sub<'_> {
    ghost wants = { wants_of_sub };

    ghost is_good = { λ s. is_good_sub (sub_of s) };

    fn seek(&self, walk: &mut Walk) -> Result<(), Stop> {
        walk.sub(self)
    }
}

impl Walk<'_> {
    /// Reads a stream of `devices`, with nothing after its end mark.
    ///
    /// # Errors
    ///
    /// The [`Stop`]: the bytes differ, or memory runs out.
    pub(crate) fn whole(&mut self, devices: &[Device]) -> Result<(), Stop>
        requires start { AtStart self.old self.old.input.now }
        requires good { list_all is_good_device (map device_of devices.now) ≡ true }
        ensures { let ws = wants (map device_of devices.now) in
            Shows (listing_of (found ws 0 0 self.old.input.now)) self.new result }
    {
        if let Err(stop) = self.stream(devices) {
            return Err(stop);
        }
        if self.place < self.input.len() {
            return Err(Stop::Differs);
        }
        Ok(())
    }

    // Reads a stream of `devices`, up to its end mark.
    fn stream(&mut self, devices: &[Device]) -> Result<(), Stop>
        requires inside { IsInside self.old }
        requires good { list_all is_good_device (map device_of devices.now) ≡ true }
        ensures { Walks (wants (map device_of devices.now)) self.old self.new result }
    {
        if let Err(stop) = self.start() {
            return Err(stop);
        }
        if let Err(stop) = self.devices(devices) {
            return Err(stop);
        }
        self.bytes(&[Mark::End.byte()])
    }

    // Reads the stream head and the machine.
    fn start(&mut self) -> Result<(), Stop>
        requires { IsInside self.old }
        ensures { Walks start_wants self.old self.new result }
    {
        if let Err(stop) = self.bytes(b"QEVM") {
            return Err(stop);
        }
        if let Err(stop) = self.bytes(&[0, 0, 0, 3]) {
            return Err(stop);
        }
        self.machine()
    }

    fn devices(&mut self, devices: &[Device]) -> Result<(), Stop>
        requires inside { IsInside self.old }
        requires good { list_all is_good_device (map device_of devices.now) ≡ true }
        ensures { Walks (devices_wants devices.now) self.old self.new result }
    {
        self.each(devices)
    }

    fn device(&mut self, device: &Device) -> Result<(), Stop>
        requires inside { IsInside self.old }
        requires good { is_good_device (device_of device.now) ≡ true }
        ensures { Walks (device_wants (device_of device.now)) self.old self.new result }
    {
        if let Err(stop) = self.head(device.name, device.instance, device.version) {
            return Err(stop);
        }
        if let Err(stop) = self.elements(&device.elements) {
            return Err(stop);
        }
        if let Err(stop) = self.subs(&device.subs) {
            return Err(stop);
        }
        self.foot()
    }

    fn subs(&mut self, subs: &[Sub]) -> Result<(), Stop>
        requires inside { IsInside self.old }
        requires good { list_all is_good_sub (map sub_of subs.now) ≡ true }
        ensures { Walks (subs_wants subs.now) self.old self.new result }
    {
        self.each(subs)
    }

    fn sub(&mut self, sub: &Sub) -> Result<(), Stop>
        requires inside { IsInside self.old }
        requires good { is_good_sub (sub_of sub.now) ≡ true }
        ensures { Walks (sub_wants (sub_of sub.now)) self.old self.new result }
    {
        if let Err(stop) = self.sub_head(sub) {
            return Err(stop);
        }
        self.elements(&sub.elements)
    }

    // Reads the head of a subsection that was sent, and prints its line.
    fn sub_head(&mut self, sub: &Sub) -> Result<(), Stop>
        requires inside { IsInside self.old }
        requires short { length sub.now.name.now ≤ LONGEST_NAME }
        ensures { Walks (sub_head_wants (sub_of sub.now) sub.now.sent) self.old self.new result }
    {
        if sub.sent {
            self.sent_head(sub.name, sub.version)
        } else {
            self.kept_head(sub.name)
        }
    }

    fn sent_head(&mut self, name: &str, version: u32) -> Result<(), Stop>
        requires inside { IsInside self.old }
        requires short { length name.now ≤ LONGEST_NAME }
        ensures { Walks (Bytes (sub_head name.now version) ∷ Line (sent_line name.now version) ∷ [])
            self.old self.new result }
    {
        let head = sub_head(name.as_bytes(), version);
        if let Err(stop) = self.bytes(head.as_slice()) {
            return Err(stop);
        }
        self.print_sent(name, version)?;
        Ok(())
    }

    fn kept_head(&mut self, name: &str) -> Result<(), Stop>
        requires { IsInside self.old }
        ensures ok { OnOk result (Goes (Line (kept_line name.now) ∷ []) self.old self.new) }
        ensures err { IfErr result (λ e. e ≡ stops.NoMemory) }
    {
        self.print_kept(name)?;
        Ok(())
    }

    fn print_sent(&mut self, name: &str, version: u32) -> Result<(), Stop>
        ensures ok { OnOk result (Prints self.old self.new (sent_line name.now version)) }
        ensures err { IfErr result (λ e. e ≡ stops.NoMemory) }
    {
        let mut digits = Buffer::new();
        self.text.extend_from_slice(b"sub ")?;
        self.text.extend_from_slice(name.as_bytes())?;
        self.text.extend_from_slice(b" v")?;
        self.text
            .extend_from_slice(digits.format(version).as_bytes())?;
        self.text.extend_from_slice(b"\n")?;
        Ok(())
    }

    fn print_kept(&mut self, name: &str) -> Result<(), Stop>
        ensures ok { OnOk result (Prints self.old self.new (kept_line name.now)) }
        ensures err { IfErr result (λ e. e ≡ stops.NoMemory) }
    {
        self.text.extend_from_slice(b"sub ")?;
        self.text.extend_from_slice(name.as_bytes())?;
        self.text.extend_from_slice(b" -")?;
        self.text.extend_from_slice(b"\n")?;
        Ok(())
    }
}
