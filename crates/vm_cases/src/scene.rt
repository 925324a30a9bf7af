//! What a case's lines are played over, and what is told of them.

use crate::case::Unplayed;
use crate::files::{MOST, bytes_of, file_of, name_of, pages_file};
use crate::setting::Setting;
use std::alloc::Global;
use std::sync::Wait;
use std::thread::Threads;
use vm_cli::drive::NoGate;
use vm_cli::ends::Ends;
use vm_cli::run::run;
use vm_device::{Devices, MemDevices};
use vm_io::host::Host;
use vm_io::memory::MemHost;
use vm_page::WORDS;

/// A host and devices in memory, the end of the last pool, and what is told behind what the host says.
#[derive(Drop)]
pub struct Scene<'a> {
    alloc: Global,
    own: MemHost,
    devices: MemDevices<WORDS>,
    /// The page file that the devices hold, and how many pages it has.
    name: &'a str,
    pages: u32,
    ends: Ends,
    told: String,
    is_told: bool,
}

impl<'a> Scene<'a> {
    /// A host with these files, and devices with the page file of the setting, which is one of the folder.
    pub fn new<H: Host>(
        alloc: Global,
        folder: &mut H,
        files: Vec<(String, Vec<u8>)>,
        setting: &Setting<'a>,
    ) -> Result<Scene<'a>, Unplayed> {
        let mut held = Vec::new(alloc);
        let mut count = 0;
        if let Some(name) = setting.pages {
            let bytes = file_of(alloc, folder, name)?;
            count = bytes.len() / 512;
            if held
                .push(pages_file(alloc, name, bytes.as_slice())?)
                .is_err()
            {
                return Err(Unplayed);
            }
        }
        let Ok(pages) = u32::try_from(count) else {
            return Err(Unplayed);
        };
        let Ok(devices) = MemDevices::<WORDS>::new(
            alloc,
            held,
            setting.devices.as_slice(),
            setting.blocks.as_slice(),
            setting.syncs.as_slice(),
        ) else {
            return Err(Unplayed);
        };
        let Ok(own) = MemHost::new(alloc, files, MOST, setting.calls.as_slice()) else {
            return Err(Unplayed);
        };
        Ok(Scene {
            alloc,
            own: own.with_piece(setting.piece),
            devices,
            name: setting.pages.unwrap_or(""),
            pages,
            ends: Ends::Nothing,
            told: String::new(alloc),
            is_told: false,
        })
    }

    /// What the host said, unless a line told it, and what was told.
    pub fn said(&self) -> (&[u8], &str) {
        let said = if self.is_told { &[] } else { self.own.said() };
        (said, self.told.as_str())
    }

    /// Plays a line: a command line, or one of those that tell what commands left.
    pub fn play<R: Threads + Wait + Sync, H: Host>(
        &mut self,
        rt: &R,
        folder: &mut H,
        line: &str,
    ) -> Result<(), Unplayed> {
        let (word, rest) = match line.split_once(' ') {
            Some(parts) => parts,
            None => (line, ""),
        };
        match word {
            "same" => self.tell_same(folder, rest),
            "among" => self.tell_among(folder, rest),
            "kept" => self.tell_kept(),
            "counts" => self.tell_counts(),
            "faults" => self.tell_faults(),
            "home" => self.tell_home(),
            "fetch" => self.fetch(rest),
            _ => self.perform(rt, line),
        }
    }

    /// Performs a command line, and tells its status.
    fn perform<R: Threads + Wait + Sync>(&mut self, rt: &R, line: &str) -> Result<(), Unplayed> {
        let words = words_of(self.alloc, line)?;
        let status = run(
            rt,
            self.alloc,
            words.as_slice(),
            &mut self.own,
            &NoGate,
            &mut self.ends,
            &mut self.devices,
        );
        let Ok(told) = format!(in self.alloc; "status {status}\n") else {
            return Err(Unplayed);
        };
        self.tell(told.as_str())
    }

    /// Whether a file of the host has the bytes of a file of the folder.
    fn tell_same<H: Host>(&mut self, folder: &mut H, names: &str) -> Result<(), Unplayed> {
        let Some((name, other)) = names.split_once(' ') else {
            return Err(Unplayed);
        };
        let bytes = file_of(self.alloc, folder, other)?;
        let is_same = self.own.file(name) == Some(bytes.as_slice());
        self.tell(if is_same { "same\n" } else { "other\n" })
    }

    /// Whether what the host said stands in one of these files of the folder: then just that is told of it.
    fn tell_among<H: Host>(&mut self, folder: &mut H, names: &str) -> Result<(), Unplayed> {
        for name in names.split(',') {
            let bytes = file_of(self.alloc, folder, name)?;
            if self.own.said() == bytes.as_slice() {
                self.is_told = true;
            }
        }
        self.tell(if self.is_told { "among\n" } else { "other\n" })
    }

    /// Whether the end of a pool is kept, and of which.
    fn tell_kept(&mut self) -> Result<(), Unplayed> {
        let kept = match &self.ends {
            Ends::Nothing => "kept nothing\n",
            Ends::Tree(_) => "kept tree\n",
            Ends::LargeTree(_) => "kept large tree\n",
            Ends::BytesTree(_) => "kept bytes tree\n",
        };
        self.tell(kept)
    }

    /// What the end of a pool that is kept has counted.
    fn tell_counts(&mut self) -> Result<(), Unplayed> {
        let (reads, writes, faults) = match &self.ends {
            Ends::Nothing => return Err(Unplayed),
            Ends::Tree(ended) => (ended.reads(), ended.writes(), ended.faults()),
            Ends::LargeTree(ended) => (ended.reads(), ended.writes(), ended.faults()),
            Ends::BytesTree(ended) => (ended.reads(), ended.writes(), ended.faults()),
        };
        let told = format!(in self.alloc; "counts reads {reads} writes {writes} faults {faults}\n");
        let Ok(told) = told else {
            return Err(Unplayed);
        };
        self.tell(told.as_str())
    }

    /// How many faults the devices have counted.
    fn tell_faults(&mut self) -> Result<(), Unplayed> {
        let faults = self.devices.faults();
        let Ok(told) = format!(in self.alloc; "faults {faults}\n") else {
            return Err(Unplayed);
        };
        self.tell(told.as_str())
    }

    /// The block of each page is at home: else the case can't be played.
    fn tell_home(&mut self) -> Result<(), Unplayed> {
        let _bytes = bytes_of(self.alloc, &mut self.devices, self.name, self.pages)?;
        self.tell("home\n")
    }

    /// A file of the host gets the bytes of the devices' pages.
    fn fetch(&mut self, name: &str) -> Result<(), Unplayed> {
        let bytes = bytes_of(self.alloc, &mut self.devices, self.name, self.pages)?;
        match self.own.replace(name, bytes.as_slice()) {
            Ok(()) => Ok(()),
            Err(_) => Err(Unplayed),
        }
    }

    /// Adds to what is told.
    fn tell(&mut self, told: &str) -> Result<(), Unplayed> {
        match self.told.push_str(told) {
            Ok(()) => Ok(()),
            Err(_) => Err(Unplayed),
        }
    }
}

/// The words of a line.
fn words_of(alloc: Global, line: &str) -> Result<Vec<String>, Unplayed> {
    let mut words = Vec::new(alloc);
    for word in line.split_whitespace() {
        if words.push(name_of(alloc, word)?).is_err() {
            return Err(Unplayed);
        }
    }
    Ok(words)
}
