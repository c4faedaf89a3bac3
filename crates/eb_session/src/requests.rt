// From a line to the request that it is.
ghost use Rattle.std.specs.Prelude.{◌≡◌, codes, IfOk, option_map, option_and_then};
ghost use Rattle.serde_json.specs.Find.{get, as_str};
ghost use Rattle.serde_json.specs.View.{view};
ghost use Rattle.eb_json.specs.Forms as forms;
ghost use Rattle.eb_session.specs.Requests.{Tells, IsRequest, alone, asked, place_form, edit_request, by_word, request_in, request_of};
ghost use Rattle.eb_session.specs.Requests as requests;
ghost use Rattle.eb_session.specs.declared.requests.Request.TheVariants as request;

use eb_base::Memory;
use eb_json::{FormFault, document, has_keys, member, natural_in, object};
use eb_scene::Edit;
use eb_scene_text::{ReadFault, edit_read};
use serde_json::Value;
use std::alloc::Global;

/// The most bytes that a line may have, without its line feed.
pub const MOST_LINE_BYTES: usize = 65536;

/// Where a line comes from.
#[derive(Clone, Copy)]
pub enum LineMode {
    /// From the input of a session, in which every request may come.
    Free,
}

/// What a line asks for.
#[derive(Drop)]
pub enum Request {
    /// A change of the project.
    Edit(Edit),
    /// Write the section's file, if its bytes changed.
    Publish,
    /// Print every entity of the world.
    Dump,
    /// Print what baking left out.
    Issues,
    /// Print the project.
    Project,
    /// Load a section into the world, as it was last published.
    Load {
        /// The scene, 1 to 16.
        scene: u8,
        /// The section, 0 to 63.
        section: u8,
    },
    /// Take a section out of the world.
    Unload {
        /// The scene, 1 to 16.
        scene: u8,
        /// The section, 0 to 63.
        section: u8,
    },
}

/// Why a line is no request.
#[derive(Clone, Copy)]
pub enum RequestFault {
    /// Want of memory.
    Memory,
    /// The line has more than 65,536 bytes.
    LineTooLong,
    /// The line is no JSON document.
    BadJson,
    /// The request isn't answered yet.
    NotYet,
    /// The document is no request.
    BadRequest {
        /// The number of the first wrong node in preorder, and 4294967295 from that number on.
        place: u32,
    },
}

impl From<Memory> for RequestFault {
    ghost use Rattle.eb_session.specs.declared.requests.RequestFault.TheVariants.{Memory};

    ghost from_gives = { λ _ e. e ≡ Memory };

    fn from(_: Memory) -> Self {
        RequestFault::Memory
    }
}

impl From<FormFault> for RequestFault {
    ghost use Rattle.eb_session.specs.Requests.{fault_of};

    ghost from_gives = { λ fault made. made ≡ fault_of fault };

    fn from(fault: FormFault) -> Self {
        match fault {
            FormFault::Memory => RequestFault::Memory,
            FormFault::Wrong { place } => RequestFault::BadRequest { place },
        }
    }
}

/// Whether requests of this word aren't answered yet.
#[tactic(auto, unfolding(crate::specs::Requests::is_later))]
fn is_later(word: &str) -> bool
    ensures { result ≡ requests.is_later word.now }
{
    word == "rows"
        || word == "count"
        || word == "sum"
        || word == "max"
        || word == "job"
        || word == "buffer"
}

/// The request of a word that has no other member.
#[tactic(auto, unfolding(crate::specs::Requests::alone))]
fn word_alone(value: &Value, request: Request) -> Result<Request, RequestFault>
    requires { IsRequest request }
    ensures told { Tells result (alone request (view value.now)) }
    ensures valid { IfOk result IsRequest }
{
    if has_keys(value, &["do"]) {
        Ok(request)
    } else {
        Err(RequestFault::BadRequest { place: 0 })
    }
}

/// The scene and the section of a request that names them.
#[tactic(auto, unfolding(crate::specs::Requests::place_form))]
fn place_of(value: &Value) -> Result<(u8, u8), FormFault>
    ensures { forms.Gives (λ p. p) result (place_form (view value.now)) }
{
    object(0, value, &["do", "scene", "section"])?;
    let scene = natural_in(2, member(2, value, "scene")?, 1, 16)?;
    let section = natural_in(3, member(3, value, "section")?, 0, 63)?;
    Ok((scene as u8, section as u8))
}

/// The request to load a section.
fn load_of(value: &Value) -> Result<Request, RequestFault>
    ensures told { Tells result (asked (λ p. request.Load p.0 p.1) (place_form (view value.now))) }
    ensures valid { IfOk result IsRequest }
{
    let (scene, section) = place_of(value)?;
    Ok(Request::Load { scene, section })
}

/// The request to unload a section.
fn unload_of(value: &Value) -> Result<Request, RequestFault>
    ensures told { Tells result (asked (λ p. request.Unload p.0 p.1) (place_form (view value.now))) }
    ensures valid { IfOk result IsRequest }
{
    let (scene, section) = place_of(value)?;
    Ok(Request::Unload { scene, section })
}

/// The edit that a document is.
fn edit_of(alloc: Global, value: &Value) -> Result<Request, RequestFault>
    ensures told { Tells result (edit_request (view value.now)) }
    ensures valid { IfOk result IsRequest }
{
    match edit_read(alloc, value) {
        Ok(edit) => Ok(Request::Edit(edit)),
        Err(ReadFault::Memory) => Err(RequestFault::Memory),
        Err(ReadFault::BadRequest { place }) => Err(RequestFault::BadRequest { place }),
    }
}

/// The request of a word; with any other word the document is read as an edit.
#[tactic(auto, unfolding(crate::specs::Requests::by_word))]
fn of_word(alloc: Global, word: &str, value: &Value) -> Result<Request, RequestFault>
    ensures told { Tells result (by_word word.now (view value.now)) }
    ensures valid { IfOk result IsRequest }
{
    if is_later(word) {
        return Err(RequestFault::NotYet);
    }
    if word == "publish" {
        return word_alone(value, Request::Publish);
    }
    if word == "dump" {
        return word_alone(value, Request::Dump);
    }
    if word == "issues" {
        return word_alone(value, Request::Issues);
    }
    if word == "project" {
        return word_alone(value, Request::Project);
    }
    if word == "load" {
        return load_of(value);
    }
    if word == "unload" {
        return unload_of(value);
    }
    edit_of(alloc, value)
}

/// The word of a document, if it has one.
fn word_in(value: &Value) -> Option<&str>
    ensures { option_map (λ s. s.now) result ≡ option_and_then as_str (get (codes "do") (view value.now)) }
{
    value.get("do").and_then(Value::as_str)
}

/// The request that a document is.
#[tactic(auto, unfolding(crate::specs::Requests::request_in))]
fn request_of_document(alloc: Global, value: &Value) -> Result<Request, RequestFault>
    ensures told { Tells result (request_in (view value.now)) }
    ensures valid { IfOk result IsRequest }
{
    match word_in(value) {
        Some(word) => of_word(alloc, word, value),
        None => edit_of(alloc, value),
    }
}

/// The request that the line is, without its line feed, or the first rule that it breaks.
#[tactic(auto, unfolding(crate::specs::Requests::request_of))]
pub fn read_request(alloc: Global, line: &[u8]) -> Result<Request, RequestFault>
    ensures told { Tells result (request_of line.now) }
    ensures valid { IfOk result IsRequest }
{
    if line.len() > MOST_LINE_BYTES {
        return Err(RequestFault::LineTooLong);
    }
    match document(alloc, line)? {
        Some(value) => request_of_document(alloc, &value),
        None => Err(RequestFault::BadJson),
    }
}
