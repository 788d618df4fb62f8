// The memory of a conversion. All of it is allocated before the input is read.
ghost use Rattle.std.specs.Prelude.{◌≡◌, IfOk};
ghost use Rattle.vms_desc.specs.Described.{described};
ghost use Rattle.vms_convert.specs.OneDevice.{HasDevice};
ghost use Rattle.vms_convert.specs.Rooms.{AreAllRoutes, AreCompatible, AreCounterparts, HasCounterpart, IsRoomFor, IsRouteTo, recast_room};

use crate::pairing::partners;
use crate::recasting::is_recast;
use std::alloc::Global;
use vms_desc::DescSet;
use vms_image::Image;
use vms_io::NoMemory;
use vms_load::default_images;
use vms_selfdesc::DescriptionRoom;

/// What brings one device of the newest set to the target.
#[derive(Drop)]
pub(crate) struct Route {
    /// The newest set's device of the same name and instance.
    pub(crate) other: u32,
    /// The partner of each cell of the target's device, if it has one.
    pub(crate) partners: Vec<Option<u32>>,
    /// The default image of the newest set's device, for its recast numbers. None, if the target
    /// keeps the device in the same form.
    pub(crate) recast: Option<Image>,
    /// The default image of the newest set's device, for the numbers that the target carries.
    pub(crate) carried: Image,
}

/// The memory of one conversion.
#[derive(Drop)]
pub(crate) struct Room {
    /// The default image of each device of the target.
    pub(crate) images: Vec<Image>,
    /// The route to each device of the target.
    pub(crate) routes: Vec<Route>,
    /// The memory for the description of these images.
    pub(crate) text: DescriptionRoom,
}

/// Returns the memory for a conversion from the newest set to `to`.
///
/// # Errors
///
/// [`NoMemory`] if memory runs out.
pub(crate) fn room_for(alloc: Global, to: &DescSet, newest: &DescSet) -> Result<Room, NoMemory>
    requires { AreCompatible to.now newest.now }
    ensures { IfOk result (IsRoomFor to.now newest.now) }
{
    Ok(Room {
        images: default_images(alloc, to)?,
        routes: routes_to(alloc, to, newest)?,
        text: DescriptionRoom::new(alloc)?,
    })
}

// Returns the route to each device of the target.
fn routes_to(alloc: Global, to: &DescSet, newest: &DescSet) -> Result<Vec<Route>, NoMemory>
    requires { AreCompatible to.now newest.now }
    ensures { IfOk result (λ routes. AreAllRoutes to.now newest.now routes.items) }
{
    let devices = to.parts().devices.as_slice().len();
    let mut routes = Vec::with_capacity(alloc, devices)?;
    for device in 0..devices {
        routes.push(route_to(alloc, to, device as u32, newest)?)?;
    }
    Ok(routes)
}

// Returns the route to a device of the target.
fn route_to(alloc: Global, to: &DescSet, device: u32, newest: &DescSet) -> Result<Route, NoMemory>
    requires { HasCounterpart to.now newest.now device }
    ensures { IfOk result (IsRouteTo to.now newest.now device) }
{
    let other = counterpart(to, device, newest);
    Ok(Route {
        other,
        partners: partners(alloc, to, device, newest, other)?,
        recast: recast_room(alloc, to, newest, other)?,
        carried: Image::new(alloc, newest, other)?,
    })
}

// Returns the newest set's device of the name and instance of `device`.
fn counterpart(to: &DescSet, device: u32, newest: &DescSet) -> u32
    requires { HasCounterpart to.now newest.now device }
    ensures { AreCounterparts to.now newest.now device result }
{
    let described = to.device(device);
    match newest.find(described.desc.name.as_bytes(), described.instance) {
        Some(other) => other,
        None => unreachable!(),
    }
}

// Returns an image for the recast numbers of the newest set's device `other`, if they are recast.
fn recast_room(
    alloc: Global,
    to: &DescSet,
    newest: &DescSet,
    other: u32,
) -> Result<Option<Image>, NoMemory>
    requires { HasDevice newest.now other }
    ensures { IfOk result (λ room.
        room ≡ recast_room (described to.now) (described newest.now) other) }
{
    if is_recast(to, newest.device(other)) {
        Ok(Some(Image::new(alloc, newest, other)?))
    } else {
        Ok(None)
    }
}
