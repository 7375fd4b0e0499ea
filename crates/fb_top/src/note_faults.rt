// The part of a note that names a fault.
ghost use Rattle.std.specs.Prelude.{◌≡◌, ◌++◌, codes, OnOk};
ghost use Rattle.fb_top.specs.Notes.{numbered, usage_reason, trace_reason, calls_reason, puts_reason, geometry_fault, seek_fault};
ghost use Rattle.fb_top.specs.Notes.{params_fault};

use crate::note_words::{
    push_numbered, push_with_key, push_with_number, push_with_place, push_with_track,
};
use fb_calls::{CallsFault, CallsReason};
use fb_geometry::GeometryFault;
use fb_params::ParamsFault;
use fb_puts::{PutsFault, PutsReason};
use fb_seek::SeekFault;
use fb_texts::push_words;
use fb_trace::{TraceFault, TraceReason};
use fb_units::NoMemory;
use fb_words::{UsageFault, UsageReason};

/// Adds which word of the command line is refused, and why. The only error is out of memory.
pub fn push_usage_fault(text: &mut Vec<u8>, fault: &UsageFault) -> Result<(), NoMemory>
    ensures { OnOk result
        (text.new.items ≡ text.old.items ++ (numbered (codes "usage: word ") fault.now.place ++ usage_reason fault.now.reason)) }
{
    push_numbered(text, "usage: word ", u64::from(fault.place))?;
    push_usage_reason(text, fault.reason)
}

// Adds why a word of the command line is refused. The only error is out of memory.
fn push_usage_reason(text: &mut Vec<u8>, reason: UsageReason) -> Result<(), NoMemory>
    ensures { OnOk result (text.new.items ≡ text.old.items ++ usage_reason reason) }
{
    match reason {
        UsageReason::NoCommand => push_words(text, "NoCommand"),
        UsageReason::UnknownCommand => push_words(text, "UnknownCommand"),
        UsageReason::UnknownOption => push_words(text, "UnknownOption"),
        UsageReason::NoValue => push_words(text, "NoValue"),
        UsageReason::OptionTwice => push_words(text, "OptionTwice"),
        UsageReason::BadValue => push_words(text, "BadValue"),
        UsageReason::MissingOption(number) => {
            push_with_number(text, "MissingOption", u64::from(number))
        }
        UsageReason::CallsAndBack => push_words(text, "CallsAndBack"),
        UsageReason::PutsAndSpill => push_words(text, "PutsAndSpill"),
        UsageReason::RebuildIncomplete => push_words(text, "RebuildIncomplete"),
        UsageReason::RebuildBeyond => push_words(text, "RebuildBeyond"),
    }
}

/// Adds which line of a trace is refused, and why. The only error is out of memory.
pub fn push_trace_fault(text: &mut Vec<u8>, fault: &TraceFault) -> Result<(), NoMemory>
    ensures { OnOk result
        (text.new.items ≡ text.old.items ++ (numbered (codes "trace: line ") fault.now.line ++ trace_reason fault.now.reason)) }
{
    push_numbered(text, "trace: line ", fault.line)?;
    push_trace_reason(text, fault.reason)
}

// Adds why a line of a trace is refused. The only error is out of memory.
fn push_trace_reason(text: &mut Vec<u8>, reason: TraceReason) -> Result<(), NoMemory>
    ensures { OnOk result (text.new.items ≡ text.old.items ++ trace_reason reason) }
{
    match reason {
        TraceReason::TooFewFields => push_words(text, "TooFewFields"),
        TraceReason::BadTime => push_words(text, "BadTime"),
        TraceReason::BadNumber(field) => push_with_number(text, "BadNumber", u64::from(field)),
        TraceReason::OutOfOrder => push_words(text, "OutOfOrder"),
        TraceReason::Empty => push_words(text, "Empty"),
        TraceReason::TooLarge => push_words(text, "TooLarge"),
        TraceReason::BeyondDisk => push_words(text, "BeyondDisk"),
        TraceReason::TooMany => push_words(text, "TooMany"),
    }
}

/// Adds which line of a call script is refused, and why. The only error is out of memory.
pub fn push_calls_fault(text: &mut Vec<u8>, fault: &CallsFault) -> Result<(), NoMemory>
    ensures { OnOk result
        (text.new.items ≡ text.old.items ++ (numbered (codes "calls: line ") fault.now.line ++ calls_reason fault.now.reason)) }
{
    push_numbered(text, "calls: line ", fault.line)?;
    push_calls_reason(text, fault.reason)
}

// Adds why a line of a call script is refused. The only error is out of memory.
fn push_calls_reason(text: &mut Vec<u8>, reason: CallsReason) -> Result<(), NoMemory>
    ensures { OnOk result (text.new.items ≡ text.old.items ++ calls_reason reason) }
{
    match reason {
        CallsReason::BadLine => push_words(text, "BadLine"),
        CallsReason::BadTime => push_words(text, "BadTime"),
        CallsReason::BadNumber(field) => push_with_number(text, "BadNumber", u64::from(field)),
        CallsReason::OutOfOrder => push_words(text, "OutOfOrder"),
        CallsReason::UnknownVerb => push_words(text, "UnknownVerb"),
        CallsReason::UnknownKind => push_words(text, "UnknownKind"),
        CallsReason::TaskTaken => push_words(text, "TaskTaken"),
        CallsReason::UnknownTask => push_words(text, "UnknownTask"),
        CallsReason::Closed => push_words(text, "Closed"),
        CallsReason::WrongKind => push_words(text, "WrongKind"),
        CallsReason::WantedTwice => push_words(text, "WantedTwice"),
        CallsReason::Empty => push_words(text, "Empty"),
        CallsReason::BeyondDisk => push_words(text, "BeyondDisk"),
        CallsReason::TooLarge => push_words(text, "TooLarge"),
        CallsReason::WeightOutOfRange => push_words(text, "WeightOutOfRange"),
        CallsReason::BlockOutOfRange => push_words(text, "BlockOutOfRange"),
        CallsReason::TooManyBlocks => push_words(text, "TooManyBlocks"),
        CallsReason::TooMany => push_words(text, "TooMany"),
    }
}

/// Adds which line of a puts file is refused, and why. The only error is out of memory.
pub fn push_puts_fault(text: &mut Vec<u8>, fault: &PutsFault) -> Result<(), NoMemory>
    ensures { OnOk result
        (text.new.items ≡ text.old.items ++ (numbered (codes "puts: line ") fault.now.line ++ puts_reason fault.now.reason)) }
{
    push_numbered(text, "puts: line ", fault.line)?;
    push_puts_reason(text, fault.reason)
}

// Adds why a line of a puts file is refused. The only error is out of memory.
fn push_puts_reason(text: &mut Vec<u8>, reason: PutsReason) -> Result<(), NoMemory>
    ensures { OnOk result (text.new.items ≡ text.old.items ++ puts_reason reason) }
{
    match reason {
        PutsReason::BadLine => push_words(text, "BadLine"),
        PutsReason::BadTime => push_words(text, "BadTime"),
        PutsReason::BadNumber(field) => push_with_number(text, "BadNumber", u64::from(field)),
        PutsReason::OutOfOrder => push_words(text, "OutOfOrder"),
        PutsReason::Empty => push_words(text, "Empty"),
        PutsReason::BeyondDisk => push_words(text, "BeyondDisk"),
        PutsReason::TooLarge => push_words(text, "TooLarge"),
        PutsReason::Touched => push_words(text, "Touched"),
        PutsReason::OutsideReserve => push_words(text, "OutsideReserve"),
        PutsReason::PutTwice => push_words(text, "PutTwice"),
        PutsReason::TooMany => push_words(text, "TooMany"),
    }
}

/// Adds why a parameter file is refused. The only error is out of memory.
pub fn push_params_fault(text: &mut Vec<u8>, fault: &ParamsFault) -> Result<(), NoMemory>
    ensures { OnOk result (text.new.items ≡ text.old.items ++ params_fault fault.now) }
{
    match fault {
        ParamsFault::NotToml => push_words(text, "NotToml"),
        ParamsFault::UnknownKey(key) => push_with_key(text, "UnknownKey", key),
        ParamsFault::MissingKey(key) => push_with_key(text, "MissingKey", key),
        ParamsFault::WrongKind(key) => push_with_key(text, "WrongKind", key),
        ParamsFault::OutOfRange(key) => push_with_key(text, "OutOfRange", key),
        ParamsFault::Geometry(fault) => {
            push_words(text, "Geometry ")?;
            push_geometry_fault(text, *fault)
        }
        ParamsFault::Seek(fault) => {
            push_words(text, "Seek ")?;
            push_seek_fault(text, *fault)
        }
        ParamsFault::LatentOutside(lbn) => push_with_number(text, "LatentOutside", *lbn),
    }
}

// Adds why no disk has this geometry.
fn push_geometry_fault(text: &mut Vec<u8>, fault: GeometryFault) -> Result<(), NoMemory>
    ensures { OnOk result (text.new.items ≡ text.old.items ++ geometry_fault fault) }
{
    match fault {
        GeometryFault::OutOfRange => push_words(text, "OutOfRange"),
        GeometryFault::ZonesNotContiguous(index) => {
            push_with_number(text, "ZonesNotContiguous", u64::from(index))
        }
        GeometryFault::SkewTooLarge(index) => {
            push_with_number(text, "SkewTooLarge", u64::from(index))
        }
        GeometryFault::DefectOutside(place) => push_with_place(text, "DefectOutside", place),
        GeometryFault::DefectTwice(place) => push_with_place(text, "DefectTwice", place),
        GeometryFault::TooManyDefects(track) => push_with_track(text, "TooManyDefects", track),
        GeometryFault::GrownOutside(place) => push_with_place(text, "GrownOutside", place),
        GeometryFault::GrownTwice(place) => push_with_place(text, "GrownTwice", place),
        GeometryFault::TooManyInCylinder(cylinder) => {
            push_with_number(text, "TooManyInCylinder", u64::from(cylinder))
        }
    }
}

// Adds why a seek table is refused.
fn push_seek_fault(text: &mut Vec<u8>, fault: SeekFault) -> Result<(), NoMemory>
    ensures { OnOk result (text.new.items ≡ text.old.items ++ seek_fault fault) }
{
    match fault {
        SeekFault::NoPoints => push_words(text, "NoPoints"),
        SeekFault::FirstNotOne => push_words(text, "FirstNotOne"),
        SeekFault::DistanceNotRising(index) => {
            push_with_number(text, "DistanceNotRising", u64::from(index))
        }
        SeekFault::TimeFalls(index) => push_with_number(text, "TimeFalls", u64::from(index)),
        SeekFault::TooShort => push_words(text, "TooShort"),
        SeekFault::OutOfRange => push_words(text, "OutOfRange"),
    }
}
