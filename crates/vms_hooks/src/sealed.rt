// Seals the step traits: other crates can't implement them.
use crate::fault::HookFault;
use crate::pass::Pass;
use vms_kinds::DevCells;

/// Types that can be called to save a device.
pub trait CallsToSave<D> {
    fn is_called(&self);
}

impl<D, F: Fn(&Pass, &D) -> DevCells> CallsToSave<D> for F {
    fn is_called(&self) {}
}

/// Types that can be called to restore a device.
pub trait CallsToLoad<D> {
    fn is_called(&self);
}

impl<D, F: Fn(&Pass, &DevCells) -> Result<D, HookFault>> CallsToLoad<D> for F {
    fn is_called(&self) {}
}
