//! What a command gives, and how it goes out: a file may be replaced, then a text is said, and the status tells how that went.

ghost use Rattle.std.specs.Prelude.{◌≡◌, ◌⊎◌};
ghost use Rattle.vm_io.specs.Causes.{AreLater, FailedGive, SameTakes};
ghost use Rattle.vm_endings.specs.Deliveries.{content_of, IsDelivered, line};
ghost use Rattle.vm_endings.specs.Stops.{status_of as status_for, stop_line};

use crate::stop::{Stop, line_of, status_of};
use std::alloc::{AllocError, Global};
use vm_io::host::{Failed, Host};
use vm_io::loops::say_all;

/// A file's name and its bytes.
#[derive(Drop)]
pub struct File<'a> {
    pub name: &'a str,
    pub bytes: Vec<u8>,
}

/// The file to be written, if one is, the text to be said, and the status where both went out.
#[derive(Drop)]
pub struct Delivery<'a> {
    pub file: Option<File<'a>>,
    pub text: Vec<u8>,
    pub status: u8,
}

impl<'a> Delivery<'a> {
    /// A text alone.
    pub fn line(text: Vec<u8>, status: u8) -> Delivery<'a>
        ensures { content_of result ≡ line text.items status }
    {
        Delivery {
            file: None,
            text,
            status,
        }
    }
}

/// Says the whole text and gives the status; 3 where the host failed, or took nothing of a piece.
pub fn say<H: Host>(host: &mut H, text: &[u8], status: u8) -> u8
    ensures delivered { IsDelivered (line text.now status) (H.shown host.old) (H.shown host.new) result }
    ensures apart { SameTakes (H.takes host.old) (H.takes host.new) (H.last host.old) (H.last host.new) }
    ensures later { AreLater (H.gives host.old) (H.gives host.new) }
    ensures failed { (result ≡ status) ⊎ ((result ≡ 3) × FailedGive (H.gives host.old) (H.gives host.new)) }
{
    match say_all(host, text) {
        Ok(()) => status,
        Err(_) => 3,
    }
}

/// Replaces the file, if there is one, then says the text, and gives the status; 3 where the host failed, or took nothing of a piece. A file that
/// could not be written is as it was, and nothing is said.
#[tactic(auto, unfolding(vm_page::specs::Counts::count_more))]
pub fn deliver<H: Host>(host: &mut H, delivery: &Delivery<'_>) -> u8
    ensures delivered { IsDelivered (content_of delivery.now) (H.shown host.old) (H.shown host.new) result }
    ensures apart { SameTakes (H.takes host.old) (H.takes host.new) (H.last host.old) (H.last host.new) }
    ensures later { AreLater (H.gives host.old) (H.gives host.new) }
    ensures failed { (result ≡ delivery.now.status) ⊎ ((result ≡ 3) × FailedGive (H.gives host.old) (H.gives host.new)) }
{
    match &delivery.file {
        Some(file) => match host.replace(file.name, file.bytes.as_slice()) {
            Ok(()) => say(host, delivery.text.as_slice(), delivery.status),
            Err(Failed) => 3,
        },
        None => say(host, delivery.text.as_slice(), delivery.status),
    }
}

/// Says the line of a stop and gives its status; 6 where there was no memory for the line, and then nothing is said.
pub fn refuse<H: Host>(alloc: Global, host: &mut H, stop: Stop<'_>) -> u8
    ensures delivered { IsDelivered (line (stop_line stop.entry) (status_for stop.entry)) (H.shown host.old) (H.shown host.new) result
        ⊎ ((H.shown host.new ≡ H.shown host.old) × (result ≡ 6)) }
    ensures apart { SameTakes (H.takes host.old) (H.takes host.new) (H.last host.old) (H.last host.new) }
    ensures later { AreLater (H.gives host.old) (H.gives host.new) }
    ensures failed { (result ≡ status_for stop.entry) ⊎ (result ≡ 6) ⊎ ((result ≡ 3) × FailedGive (H.gives host.old) (H.gives host.new)) }
{
    match line_of(alloc, stop) {
        Ok(line) => say(host, line.as_bytes(), status_of(stop)),
        Err(AllocError) => 6,
    }
}
