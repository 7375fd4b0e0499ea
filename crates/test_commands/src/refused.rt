// Commands that are refused.
ghost use Rattle.std.specs.Prelude.{◌<◌};

use fb_scene::{Scene, end};
use std::alloc::Global;
use std::process::Abort;
use std::test::Fail;

/// Checks that these words are refused with this status and note, and write nothing else.
pub fn check_refused(
    rt: &impl Abort,
    alloc: Global,
    scene: &Scene,
    words: &str,
    status: u8,
    note: &str,
) -> Result<(), Fail>
    requires { 0 < scene.now.piece }
{
    let ending = end(alloc, scene, words)?;
    assert_eq!(rt; ending.note.as_slice(), note.as_bytes());
    assert_eq!(rt; ending.status, status, "{note}");
    assert!(rt; ending.is_silent(), "{note}");
    Ok(())
}
