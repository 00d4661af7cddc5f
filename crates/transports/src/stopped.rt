// What a stopped call of the files is.
ghost use Rattle.std.specs.Prelude.{◌≡◌, false};
ghost use Rattle.transports.specs.Calls.{by_stop, cause_by_stop, by_fault, cause_by_fault, IsRefused, IsRefusedThere};
ghost use Rattle.transports.specs.Uploads.{is_mismatch};

use crate::refusal::Refusal;
use copy_workers::Cause;
use layouts::LayoutFault;
use skopeo_outside::{Stop, Text};
use std::alloc::Global;

/// The refusal that a stopped call of the files is. The count is that of the files' faults, here and below.
pub(crate) fn refused_by(stop: Stop, faults: u64) -> Refusal
    ensures is { result ≡ by_stop stop faults }
{
    match stop {
        Stop::Fault => Refusal::Files(faults),
        Stop::Memory => Refusal::Memory,
    }
}

/// The cause that a stopped call of the files is.
pub(crate) fn caused_by(stop: Stop, faults: u64) -> Cause
    ensures is { result ≡ cause_by_stop stop faults }
    ensures unjudged { is_mismatch result ≡ false }
{
    match stop {
        Stop::Fault => Cause::Files(faults),
        Stop::Memory => Cause::Memory,
    }
}

/// The cause that a folder's fault is which may come at any step.
pub(crate) fn caused_in(fault: LayoutFault, faults: u64) -> Cause
    ensures is { result ≡ cause_by_fault fault faults }
{
    match fault {
        LayoutFault::Files => Cause::Files(faults),
        _ => Cause::Memory,
    }
}

/// The refusal that a folder's fault is which may come at any step.
pub(crate) fn refused_in(fault: LayoutFault, faults: u64) -> Refusal
    ensures is { result ≡ by_fault fault faults }
{
    match fault {
        LayoutFault::Files => Refusal::Files(faults),
        _ => Refusal::Memory,
    }
}

/// The refusal that a folder's fault is, or want of memory.
pub(crate) fn refused(alloc: Global, folder: &str, fault: LayoutFault, faults: u64) -> Refusal
    ensures is { IsRefused folder.now faults fault result }
{
    match fault {
        LayoutFault::NotAnImageDir => match Text::copy_of(alloc, folder) {
            Ok(path) => Refusal::NotAnImageDir(path),
            Err(_) => Refusal::Memory,
        },
        LayoutFault::TooLarge(what, length) => Refusal::TooLarge(what, length),
        LayoutFault::Files => Refusal::Files(faults),
        _ => Refusal::Memory,
    }
}

/// The refusal of a destination folder that a fault of it is, or want of memory.
pub(crate) fn refused_there(alloc: Global, folder: &str, fault: LayoutFault, faults: u64) -> Refusal
    ensures is { IsRefusedThere folder.now faults fault result }
{
    match fault {
        LayoutFault::Files => Refusal::Files(faults),
        LayoutFault::Memory => Refusal::Memory,
        _ => match Text::copy_of(alloc, folder) {
            Ok(path) => Refusal::NotAnImageDir(path),
            Err(_) => Refusal::Memory,
        },
    }
}
