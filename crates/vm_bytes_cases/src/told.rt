//! The commands, and what is told of each.

use std::io::{Print, Result};
use vm_bytes_edit::{del_edit, new_root, put_edit, spare_of, split};
use vm_bytes_node::{child_at, find_at};
use vm_map::key::Key;
use vm_node::{Full, in_buffer};
use vm_page::PageBuf;

/// The page that the commands are over.
#[derive(Drop)]
pub struct Telling {
    page: PageBuf<512>,
}

impl Telling {
    /// A page of zeros.
    pub fn new() -> Self {
        Telling {
            page: PageBuf::zero(),
        }
    }

    /// Plays one command; a line that is none tells nothing.
    pub fn play(&mut self, rt: &impl Print, line: &str) -> Result<()> {
        let (command, rest) = match line.split_once(' ') {
            Some(parts) => parts,
            None => (line, ""),
        };
        match command {
            "zero" => self.page = PageBuf::zero(),
            "set" => self.set(rest),
            "put" => return self.put(rt, rest),
            "del" => return self.del(rt, rest),
            "split" => return self.split(rt),
            "root" => return self.root(rt, rest),
            "find" => return self.find(rt, rest),
            "child" => return self.child(rt, rest),
            "spare" => {
                let spare = spare_of(&self.page);
                println!(rt; "spare {spare}")?;
            }
            _ => {}
        }
        Ok(())
    }

    // Words at their places.
    fn set(&mut self, rest: &str) {
        for word in rest.split(' ') {
            if let Some((place, value)) = word.split_once(':') {
                if let (Ok(place), Ok(value)) = (place.parse::<usize>(), value.parse::<u64>()) {
                    if place < 512 {
                        self.page.set(place, value);
                    }
                }
            }
        }
    }

    fn put(&mut self, rt: &impl Print, rest: &str) -> Result<()> {
        let (key, value) = key_and_number(rest);
        match put_edit(&self.page, &key, value) {
            Ok((old, page)) => {
                match old {
                    Some(old) => println!(rt; "was {old}")?,
                    None => println!(rt; "new")?,
                }
                tell(rt, &page)?;
                self.page = page;
            }
            Err(Full) => println!(rt; "full")?,
        }
        Ok(())
    }

    fn del(&mut self, rt: &impl Print, rest: &str) -> Result<()> {
        match del_edit(&self.page, &key_of(rest)) {
            Some((old, page)) => {
                println!(rt; "gone {old}")?;
                tell(rt, &page)?;
                self.page = page;
            }
            None => println!(rt; "none")?,
        }
        Ok(())
    }

    fn split(&self, rt: &impl Print) -> Result<()> {
        let mut left = PageBuf::zero();
        let mut right = PageBuf::zero();
        let separator = split(&self.page, &mut left, &mut right);
        tell_key(rt, &separator)?;
        tell(rt, &left)?;
        tell(rt, &right)
    }

    fn root(&mut self, rt: &impl Print, rest: &str) -> Result<()> {
        let (level, rest) = number_and_rest(rest);
        let (left, rest) = number_and_rest(rest);
        let (key, right) = key_and_number(rest);
        new_root(&mut self.page, level, left, &key, right);
        tell(rt, &self.page)
    }

    fn find(&self, rt: &impl Print, rest: &str) -> Result<()> {
        match find_at(&mut in_buffer(&self.page), &key_of(rest)) {
            Some(value) => println!(rt; "some {value}"),
            None => println!(rt; "none"),
        }
    }

    fn child(&self, rt: &impl Print, rest: &str) -> Result<()> {
        match child_at(&mut in_buffer(&self.page), &key_of(rest)) {
            Some(child) => {
                let page = child.page;
                println!(rt; "child {page}")?;
                tell_key(rt, &child.low)?;
                match child.next {
                    Some(next) => tell_key(rt, &next),
                    None => println!(rt; "end"),
                }
            }
            None => println!(rt; "none"),
        }
    }
}

// The words that are not 0, each after its place, and then a line of its own.
fn tell(rt: &impl Print, page: &PageBuf<512>) -> Result<()> {
    for i in 0..512 {
        let word = page.get(i);
        if word != 0 {
            print!(rt; "{i}:{word} ")?;
        }
    }
    println!(rt; ".")
}

// The bytes of a key.
fn tell_key(rt: &impl Print, key: &Key) -> Result<()> {
    for byte in key.as_slice() {
        print!(rt; "{byte:02x}")?;
    }
    println!(rt; "-")
}

// The key of these digits; what is no digit ends it.
fn key_of(text: &str) -> Key {
    let mut key = Key::new();
    let mut high = None;
    for digit in text.bytes() {
        let value = match digit {
            b'0'..=b'9' => digit - b'0',
            b'a'..=b'f' => digit - b'a' + 10,
            _ => break,
        };
        match high {
            None => high = Some(value),
            Some(first) => {
                if key.len() < 64 {
                    key.push(first.wrapping_mul(16).wrapping_add(value));
                }
                high = None;
            }
        }
    }
    key
}

// A key, a space and a number, which is 0 where it is none.
fn key_and_number(text: &str) -> (Key, u64) {
    match text.split_once(' ') {
        Some((key, number)) => (key_of(key), number.parse().unwrap_or(0)),
        None => (key_of(text), 0),
    }
}

// A number, which is 0 where it is none, and what is behind it and a space.
fn number_and_rest(text: &str) -> (u64, &str) {
    match text.split_once(' ') {
        Some((number, rest)) => (number.parse().unwrap_or(0), rest),
        None => (text.parse().unwrap_or(0), ""),
    }
}
