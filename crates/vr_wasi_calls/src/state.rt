//! What a program's calls read and change beside its memory.

ghost use Rattle.std.specs.Prelude.{◌≡◌, ◌+◌, ◌++◌, ◌<◌, ◌≤◌, drop, IfOk, [], IfSome, IsTrue, OnOk, OnErr, length, not, position};
ghost use Rattle.std.specs.Option.{option_copied};
ghost use Rattle.vr_base.specs.Checks.{value_of};
ghost use Rattle.vr_files.specs.declared.pages.TheConstants.{MOST_BYTES};
ghost use Rattle.vr_wasi_calls.specs.Calls.{argument};
ghost use Rattle.vr_wasi_calls.specs.Checks.{Finds};
ghost use Rattle.vr_wasi_calls.specs.Descriptors.{as_file, body_of, directory_check, free_number, is_file, is_open, open_at, preopened_check, stream_at};
ghost use Rattle.vr_wasi_calls.specs.declared.descriptors.Descriptor.TheVariants.{File};
ghost use Rattle.vr_wasi_calls.specs.Worlds.{DescriptorFits, IsThere, IsWorld, descriptor_at, first_world, file_at, patched, positioned, sized_at, with_body, with_descriptor, with_output, with_taken, without_body, word_at};

use crate::argument::Argument;
use crate::checks::refuse_if;
use crate::descriptors::{DESCRIPTORS, Descriptor, FIRST_FILE, OpenFile};
use crate::errno::Errno;
use std::alloc::Global;
use std::marker::Model;
use vr_base::{Bytes, Grants, NoMemory, Path};
use vr_files::{FileBody, Overlay};

/// A program's path and grants, the files, its input and output and its descriptors. Contracts see
/// them together.
#[derive(Drop)]
pub struct State {
    argument: Argument,
    grants: Grants,
    files: Overlay,
    input: Bytes,
    taken: usize,
    output: Bytes,
    descriptors: Vec<Descriptor>,
}

impl Model for State {
    ghost use Rattle.vr_wasi_calls.specs.Worlds.{World, IsWorld, assembled, coded_world};

    ghost Value = { World };

    ghost coded = { coded_world };

    ghost view = { λ s.
        assembled s.argument s.grants s.files s.input s.taken s.output s.descriptors.items };

    ghost invariant = { λ s. IsWorld
        (assembled s.argument s.grants s.files s.input s.taken s.output s.descriptors.items) };
}

impl State {
    /// What a program begins with.
    pub fn new(
        alloc: Global,
        path: Path,
        grants: Grants,
        files: Overlay,
        input: Bytes,
    ) -> Result<State, NoMemory>
        ensures { IfOk result (λ state. state ≡ first_world path grants files input) }
    {
        let argument = Argument::new(alloc, path)?;
        let descriptors = first_descriptors(alloc)?;
        Ok(State {
            argument,
            grants,
            files,
            input,
            taken: 0,
            output: Bytes::of(Vec::new(alloc)),
            descriptors,
        })
    }

    /// What is true of each state. A call does nothing: it is made for what it ensures.
    pub fn known(&self)
        ensures { IsWorld self.now }
    {
        let _ = self.descriptors.len();
    }

    /// The allocator that the state was made with.
    pub fn alloc(&self) -> Global {
        *self.descriptors.allocator()
    }

    /// The program's one argument, its path, as a text that ends with a zero.
    pub fn argument(&self) -> &[u8]
        ensures { result.now ≡ argument self.now }
    {
        self.argument.text()
    }

    // ---- descriptors

    /// What stands at an open descriptor.
    pub fn open(&self, fd: u32) -> Result<&Descriptor, Errno>
        ensures exact { Finds (value_of result) (open_at self.now fd) }
        ensures there { IfOk result (λ d. d.now ≡ descriptor_at self.now fd) }
        ensures within { OnOk result (fd < DESCRIPTORS) }
    {
        match self.descriptors.get(fd as usize) {
            None | Some(Descriptor::Closed) => Err(Errno::Badf),
            Some(descriptor) => Ok(descriptor),
        }
    }

    /// What stands at an open descriptor that is not the directory.
    pub fn stream(&self, fd: u32) -> Result<&Descriptor, Errno>
        ensures exact { Finds (value_of result) (stream_at self.now fd) }
        ensures there { IfOk result (λ d. d.now ≡ descriptor_at self.now fd) }
        ensures within { OnOk result (fd < DESCRIPTORS) }
    {
        let descriptor = self.open(fd)?;
        refuse_if(descriptor.is_directory(), Errno::Badf)?;
        Ok(descriptor)
    }

    /// Refuses what is not the directory.
    pub fn check_directory(&self, fd: u32) -> Result<(), Errno>
        ensures { Finds result (directory_check self.now fd) }
    {
        let descriptor = self.open(fd)?;
        refuse_if(!descriptor.is_directory(), Errno::Notdir)
    }

    /// Refuses what is not the directory as if it were closed.
    pub fn check_preopened(&self, fd: u32) -> Result<(), Errno>
        ensures { Finds result (preopened_check self.now fd) }
    {
        match self.descriptors.get(fd as usize) {
            Some(Descriptor::Directory) => Ok(()),
            _ => Err(Errno::Badf),
        }
    }

    /// The lowest number of a file at which nothing is open.
    pub fn free_number(&self) -> Option<u32>
        ensures exact { result ≡ free_number self.now }
        ensures within { IfSome result (λ number. number < DESCRIPTORS) }
    {
        let place = first_closed(&self.descriptors[FIRST_FILE..])?;
        Some((FIRST_FILE + place) as u32)
    }

    /// What stands at a descriptor.
    pub fn at(&self, fd: u32) -> &Descriptor
        requires { fd < DESCRIPTORS }
        ensures { result.now ≡ descriptor_at self.now fd }
    {
        &self.descriptors[fd as usize]
    }

    /// The file that stands at a descriptor.
    pub fn open_file(&self, fd: u32) -> Result<&OpenFile, Errno>
        ensures exact { Finds (value_of result) (as_file (descriptor_at self.now fd)) }
        ensures there { IfOk result (λ file. descriptor_at self.now fd ≡ File file.now) }
        ensures within { OnOk result (fd < DESCRIPTORS) }
    {
        match self.descriptors.get(fd as usize) {
            Some(Descriptor::File(file)) => Ok(file),
            _ => Err(Errno::Badf),
        }
    }

    /// Puts something else at a descriptor.
    pub fn set_descriptor(&mut self, fd: u32, descriptor: Descriptor)
        requires within { fd < DESCRIPTORS }
        requires allowed { DescriptorFits self.old.grants descriptor }
        ensures { self.new ≡ with_descriptor self.old fd descriptor }
    {
        self.descriptors[fd as usize] = descriptor;
    }

    /// Moves an open file to another position.
    pub fn set_position(&mut self, fd: u32, position: u64)
        requires within { fd < DESCRIPTORS }
        requires file { IsTrue (is_file (descriptor_at self.old fd)) }
        ensures { self.new ≡ positioned self.old fd (descriptor_at self.old fd) position }
    {
        match &mut self.descriptors[fd as usize] {
            Descriptor::File(file) => file.position = position,
            _ => unreachable!(),
        }
    }

    // ---- files

    /// The program's rights word on a path.
    pub fn word_on(&self, path: &Path) -> u32
        ensures { result ≡ word_at self.now path.now }
    {
        self.grants.word_on(path).word()
    }

    /// The file at a path, where there is one.
    pub fn file(&self, path: &Path) -> Option<&FileBody>
        ensures { option_copied result ≡ file_at self.now path.now }
    {
        self.files.get(path)
    }

    /// The file of an open descriptor, which may have been taken out.
    pub fn body(&self, file: &OpenFile) -> Result<&FileBody, Errno>
        ensures { Finds (value_of result) (body_of self.now file.now) }
    {
        self.files.get(&file.path).ok_or(Errno::Noent)
    }

    /// Takes a file out.
    pub fn remove_file(&mut self, path: &Path) -> Result<(), NoMemory>
        ensures ok { OnOk result (self.new ≡ without_body self.old path.now) }
        ensures err { OnErr result (self.new ≡ self.old) }
    {
        self.files.remove(path)?;
        Ok(())
    }

    /// Makes a file without bytes, or cuts one to nothing.
    pub fn make_empty(&mut self, path: &Path) -> Result<(), NoMemory>
        ensures ok { OnOk result (self.new ≡ with_body self.old path.now []) }
        ensures err { OnErr result (self.new ≡ self.old) }
    {
        match self.files.put(path, &[]) {
            Ok(()) => Ok(()),
            Err(_) => Err(NoMemory),
        }
    }

    /// Writes a piece into an open file from a place on.
    #[tactic(auto, using(crate::proofs::BodyLemmas::written_sized))]
    pub fn patch(&mut self, fd: u32, at: u64, piece: &[u8]) -> Result<(), NoMemory>
        requires within { fd < DESCRIPTORS }
        requires there { IsThere self.old (descriptor_at self.old fd) }
        requires room { at + length piece.now ≤ MOST_BYTES }
        ensures ok { OnOk result
            (self.new ≡ patched self.old (descriptor_at self.old fd) at piece.now) }
        ensures err { OnErr result (self.new ≡ self.old) }
    {
        match &self.descriptors[fd as usize] {
            Descriptor::File(file) => {
                // The body's length tells that it is a file's, and so the size after the write.
                let _ = self.files.get(&file.path).unwrap().len();
                match self.files.write_at(&file.path, at, piece) {
                    Ok(()) => Ok(()),
                    Err(_) => Err(NoMemory),
                }
            }
            _ => unreachable!(),
        }
    }

    /// Cuts an open file to a size, or fills it up with zeros.
    #[tactic(auto, using(crate::proofs::BodyLemmas::resized_sized))]
    pub fn resize(&mut self, fd: u32, size: u64) -> Result<(), NoMemory>
        requires within { fd < DESCRIPTORS }
        requires there { IsThere self.old (descriptor_at self.old fd) }
        requires room { size ≤ MOST_BYTES }
        ensures ok { OnOk result
            (self.new ≡ sized_at self.old (descriptor_at self.old fd) size) }
        ensures err { OnErr result (self.new ≡ self.old) }
    {
        match &self.descriptors[fd as usize] {
            Descriptor::File(file) => match self.files.set_size(&file.path, size) {
                Ok(()) => Ok(()),
                Err(_) => Err(NoMemory),
            },
            _ => unreachable!(),
        }
    }

    // ---- input and output

    /// What is left of the input.
    pub fn input_left(&self) -> &[u8]
        ensures { result.now ≡ drop self.now.taken self.now.input }
    {
        let input = self.input.as_slice();
        &input[self.taken.min(input.len())..]
    }

    /// Counts bytes of the input as read.
    pub fn take_input(&mut self, count: usize)
        requires { count ≤ length (drop self.old.taken self.old.input) }
        ensures { self.new ≡ with_taken self.old (self.old.taken + count) }
    {
        let _ = self.input.as_slice().len();
        self.taken += count;
    }

    /// How many bytes were written to the output.
    pub fn output_len(&self) -> usize
        ensures { result ≡ length self.now.output }
    {
        self.output.as_slice().len()
    }

    /// Adds a copy of bytes to the output.
    pub fn push_output(&mut self, bytes: &[u8]) -> Result<(), NoMemory>
        ensures ok { OnOk result (self.new ≡ with_output self.old bytes.now) }
        ensures err { OnErr result (self.new ≡ self.old) }
    {
        self.output.push_slice(bytes)
    }

    /// The files and the output.
    pub fn into_parts(self) -> (Overlay, Bytes)
        ensures files { result.0 ≡ self.files }
        ensures output { result.1 ≡ self.output }
    {
        (self.files, self.output)
    }
}

/// The place of the first descriptor that is not open.
fn first_closed(descriptors: &[Descriptor]) -> Option<usize>
    ensures { result ≡ position (λ d. not (is_open d)) descriptors.now }
{
    descriptors
        .iter()
        .position(|descriptor| !descriptor.is_open())
}

/// The descriptors that a program begins with.
fn first_descriptors(alloc: Global) -> Result<Vec<Descriptor>, NoMemory>
    ensures { IfOk result (λ descriptors.
        descriptors.items ≡ Rattle.vr_wasi_calls.specs.Worlds.first_descriptors) }
{
    let mut descriptors = Vec::with_capacity(alloc, DESCRIPTORS)?;
    descriptors.push(Descriptor::Input)?;
    descriptors.push(Descriptor::Output)?;
    descriptors.push(Descriptor::Errors)?;
    descriptors.push(Descriptor::Directory)?;
    for number in FIRST_FILE..DESCRIPTORS {
        descriptors.push(Descriptor::Closed)?;
    }
    Ok(descriptors)
}
