// The texts of replies.
ghost use Rattle.std.specs.Prelude.{◌≡◌, ◌++◌, IfOk, string_bytes};
ghost use Rattle.eb_session.specs.Replies.{rebaked_text, published_text, loaded_text, unloaded_text, dumped_text, issues_text, project_reply, edit_refusal, edit_refused_text, no_request_text, not_yet_text, no_section_text, already_loaded_text, not_loaded_text};

use crate::requests::RequestFault;
use eb_base::{Memory, Text};
use eb_scene::EditFault;
use std::alloc::{AllocError, Global};

/// The answer to one line.
#[derive(Drop)]
pub struct Reply {
    /// One line or more, each with its line feed.
    pub text: Text,
}

/// The reply of one text.
fn reply_of(text: String) -> Reply
    ensures { result.text ≡ string_bytes text }
{
    Reply {
        text: Text::from_vec(text.into_bytes()),
    }
}

/// The reply of lines and the last line behind them.
fn behind(lines: Text, last: &[u8]) -> Result<Reply, Memory>
    ensures { IfOk result (λ reply. reply.text ≡ lines ++ last.now) }
{
    let mut text = lines.into_vec();
    text.extend_from_slice(last)?;
    Ok(Reply {
        text: Text::from_vec(text),
    })
}

/// The reply to an accepted edit, which made so many runs anew, of so many that there are.
#[tactic(auto, unfolding(crate::specs::Replies::rebaked_text))]
pub fn rebaked(alloc: Global, rerun: u32, runs: u32) -> Result<Reply, Memory>
    ensures { IfOk result (λ reply. reply.text ≡ rebaked_text rerun runs) }
{
    Ok(reply_of(format!(in alloc; "ok rebaked {rerun} of {runs}\n")?))
}

/// The reply to a publication of this generation that wrote so many section files, and loaded so many sections again.
#[tactic(auto, unfolding(crate::specs::Replies::published_text))]
pub fn published(
    alloc: Global,
    generation: u64,
    changed: u32,
    reloaded: u32,
) -> Result<Reply, Memory>
    ensures { IfOk result (λ reply. reply.text ≡ published_text generation changed reloaded) }
{
    Ok(reply_of(format!(in alloc;
        "ok published {generation} changed {changed} reloaded {reloaded}\n"
    )?))
}

/// The reply to the loading of so many entities.
#[tactic(auto, unfolding(crate::specs::Replies::loaded_text))]
pub fn loaded(alloc: Global, count: u32) -> Result<Reply, Memory>
    ensures { IfOk result (λ reply. reply.text ≡ loaded_text count) }
{
    Ok(reply_of(format!(in alloc; "ok loaded {count}\n")?))
}

/// The reply to the unloading of so many entities.
#[tactic(auto, unfolding(crate::specs::Replies::unloaded_text))]
pub fn unloaded(alloc: Global, count: u32) -> Result<Reply, Memory>
    ensures { IfOk result (λ reply. reply.text ≡ unloaded_text count) }
{
    Ok(reply_of(format!(in alloc; "ok unloaded {count}\n")?))
}

/// The reply that prints the world: the lines of its entities, and how many they are.
#[tactic(auto, unfolding(crate::specs::Replies::dumped_text))]
pub fn dumped(alloc: Global, entities: Text, count: u32) -> Result<Reply, Memory>
    ensures { IfOk result (λ reply. reply.text ≡ dumped_text entities count) }
{
    let end = format!(in alloc; "ok dumped {count}\n")?;
    Ok(behind(entities, end.as_bytes())?)
}

/// The reply that prints what baking left out: the lines of the issues, and how many they are.
#[tactic(auto, unfolding(crate::specs::Replies::issues_text))]
pub fn issues(alloc: Global, lines: Text, count: usize) -> Result<Reply, Memory>
    ensures { IfOk result (λ reply. reply.text ≡ issues_text lines count) }
{
    let end = format!(in alloc; "ok issues {count}\n")?;
    Ok(behind(lines, end.as_bytes())?)
}

/// The reply that prints the project.
#[tactic(auto, unfolding(crate::specs::Replies::project_reply))]
pub fn project(printed: Text) -> Result<Reply, Memory>
    ensures { IfOk result (λ reply. reply.text ≡ project_reply printed) }
{
    Ok(behind(printed, b"ok project\n")?)
}

/// The rule that an edit breaks, by number and name.
#[tactic(auto, unfolding(crate::specs::Replies::edit_refusal))]
pub fn refusal(alloc: Global, fault: EditFault) -> Result<String, AllocError>
    ensures { IfOk result (λ text. string_bytes text ≡ edit_refusal fault) }
{
    let words = match fault {
        EditFault::Memory => "",
        EditFault::NoScene => "E3 NoScene",
        EditFault::SceneTaken => "E4 SceneTaken",
        EditFault::NoObject => "E5 NoObject",
        EditFault::ObjectTaken => "E6 ObjectTaken",
        EditFault::NoParent => "E7 NoParent",
        EditFault::Cycle => "E8 Cycle",
        EditFault::NoType => "E9 NoType",
        EditFault::NoComponent => "E10 NoComponent",
        EditFault::NoField => "E11 NoField",
        EditFault::BadValue { index } => return format!(in alloc; "E12 BadValue {index}"),
        EditFault::NoAsset => "E13 NoAsset",
        EditFault::AssetLimit => "E14 AssetLimit",
        EditFault::ObjectLimit => "E15 ObjectLimit",
        EditFault::DepthLimit => "E16 DepthLimit",
        EditFault::SectionRange => "E17 SectionRange",
    };
    String::from_str(alloc, words)
}

/// The reply to an edit that is refused.
#[tactic(auto, unfolding(crate::specs::Replies::edit_refused_text))]
pub fn edit_refused(alloc: Global, fault: EditFault) -> Result<Reply, Memory>
    ensures { IfOk result (λ reply. reply.text ≡ edit_refused_text fault) }
{
    let mut text = refusal(alloc, fault)?;
    text.push_str("\n")?;
    Ok(reply_of(text))
}

/// The reply to a line that is no request.
#[tactic(auto, unfolding(crate::specs::Replies::no_request_text))]
pub fn no_request(alloc: Global, fault: RequestFault) -> Result<Reply, Memory>
    ensures { IfOk result (λ reply. reply.text ≡ no_request_text fault) }
{
    let text = match fault {
        RequestFault::Memory => return Err(Memory),
        RequestFault::LineTooLong => String::from_str(alloc, "E1 LineTooLong\n")?,
        RequestFault::BadJson => String::from_str(alloc, "E2 BadJson\n")?,
        RequestFault::NotYet => String::from_str(alloc, "E2 NotYet\n")?,
        RequestFault::BadRequest { place } => format!(in alloc; "E2 BadRequest {place}\n")?,
    };
    Ok(reply_of(text))
}

/// The reply to the publication of a project that isn't published yet.
#[tactic(auto, unfolding(crate::specs::Replies::not_yet_text))]
pub fn not_yet(alloc: Global) -> Result<Reply, Memory>
    ensures { IfOk result (λ reply. reply.text ≡ not_yet_text) }
{
    Ok(Reply {
        text: Text::of(alloc, b"E2 NotYet\n")?,
    })
}

/// The reply to a section that isn't published.
#[tactic(auto, unfolding(crate::specs::Replies::no_section_text))]
pub fn no_section(alloc: Global) -> Result<Reply, Memory>
    ensures { IfOk result (λ reply. reply.text ≡ no_section_text) }
{
    Ok(Reply {
        text: Text::of(alloc, b"E18 NoSection\n")?,
    })
}

/// The reply to a section that is to be loaded, and is.
#[tactic(auto, unfolding(crate::specs::Replies::already_loaded_text))]
pub fn already_loaded(alloc: Global) -> Result<Reply, Memory>
    ensures { IfOk result (λ reply. reply.text ≡ already_loaded_text) }
{
    Ok(Reply {
        text: Text::of(alloc, b"E19 AlreadyLoaded\n")?,
    })
}

/// The reply to a section that is to be unloaded, and isn't loaded.
#[tactic(auto, unfolding(crate::specs::Replies::not_loaded_text))]
pub fn not_loaded(alloc: Global) -> Result<Reply, Memory>
    ensures { IfOk result (λ reply. reply.text ≡ not_loaded_text) }
{
    Ok(Reply {
        text: Text::of(alloc, b"E20 NotLoaded\n")?,
    })
}
