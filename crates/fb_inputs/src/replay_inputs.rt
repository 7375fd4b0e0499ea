// The inputs of a replay: the files of its run, and the puts that are to be written beside it.
ghost use Rattle.std.specs.Prelude.{◌≡◌, ◌≤◌, ◌^◌, length, IfErr, IfOk, IfSome};
ghost use Rattle.std.specs.Option.{option_map};
ghost use Rattle.fb_puts.specs.Verdict.{accepted};
ghost use Rattle.fb_script.specs.Allowed.{tasks};
ghost use Rattle.fb_desk.specs.View.{IsUnused};
ghost use Rattle.fb_geometry.specs.Sound.{IsSound};
ghost use Rattle.fb_model.specs.Accepted.{IsAccepted};
ghost use Rattle.fb_words.specs.Verdict.{replay_terms};
ghost use Rattle.fb_inputs.specs.Account.{Account, failed_in};
ghost use Rattle.fb_inputs.specs.Causes.{StopsInputs};
ghost use Rattle.fb_inputs.specs.Read.{Accepts, AcceptsPuts, files_of, inputs_of_files, key_of};
ghost use Rattle.fb_streams.specs.Names.{replay_names, replay_file_names};
ghost use Rattle.fb_inputs.specs.Reading.{file_names};
ghost use Rattle.fb_inputs.specs.Puts.{CanBeSpilled};
ghost use Rattle.fb_streams.specs.Called.{replay_asks};

use crate::InputsError;
use crate::puts::read_given_puts;
use crate::reading::{NamedFiles, RunFiles, read_files};
use fb_desk::{Desk, Input};
use fb_puts::Puts;
use fb_words::ReplayWords;
use std::alloc::Global;

/// What the inputs of a replay say.
#[derive(Drop)]
pub struct ReplayInputs {
    /// The files of the run.
    pub files: RunFiles,
    /// What is to be written in free gaps, if the words name a puts file.
    pub puts: Option<Puts>,
}

/// Reads the inputs of a replay: the files of its run, and then the puts file, if the words name
/// one.
///
/// The error says what is wrong with the first input that can't be read or is refused.
pub fn read_replay_inputs<D: Desk>(
    alloc: Global,
    desk: &mut D,
    words: &ReplayWords,
) -> Result<ReplayInputs, InputsError>
    requires unused { IsUnused (D.seen desk.old) }
    requires until { words.now.until ≤ 10 ^ 15 }
    ensures account { Account (replay_asks (replay_terms words.now)) Input.Puts (failed_in result) (D.seen desk.old) (D.seen desk.new) }
    ensures accepts { IfOk result
        (λ inputs. Accepts (D.seen desk.old) (replay_file_names (replay_terms words.now)) (files_of inputs.files)) }
    ensures puts { IfOk result
        (λ inputs. AcceptsPuts (D.seen desk.old) (replay_terms words.now).puts (files_of inputs.files) (option_map accepted inputs.puts)) }
    ensures fit { IfOk result (λ inputs. IsAccepted (inputs_of_files (files_of inputs.files) (key_of words.now.policy) words.now.until)) }
    ensures fit_puts { IfOk result (λ inputs. IfSome inputs.puts (λ puts. CanBeSpilled (files_of inputs.files) (accepted puts))) }
    ensures sound { IfOk result (λ inputs. IsSound inputs.files.params.disk.map) }
    ensures names { IfOk result (λ inputs. length inputs.files.calls.names ≡ length (tasks inputs.files.calls.calls.items)) }
    ensures cause { IfErr result (StopsInputs (replay_names (replay_terms words.now)) (D.seen desk.old) (D.seen desk.new)) }
{
    let files = read_files(alloc, desk, &named_files(words))?;
    let puts = read_given_puts(alloc, desk, puts_name(words), &files)?;
    Ok(ReplayInputs { files, puts })
}

// The files of the run.
fn named_files(words: &ReplayWords) -> NamedFiles<'_>
    ensures { file_names result ≡ replay_file_names (replay_terms words.now) }
{
    NamedFiles {
        params: words.params.as_str(),
        trace: words.trace.as_str(),
        calls: words.calls.as_deref(),
        device: words.device,
    }
}

// The name of the puts file, if the words give it.
fn puts_name(words: &ReplayWords) -> Option<&str>
    ensures { option_map (λ name. name.now) result ≡ (replay_terms words.now).puts }
{
    words.puts.as_deref()
}
