ghost use Rattle.std.specs.Prelude.{◌≡◌, [], IfOk, OnOk, OnErr, IfErr, map, length};
ghost use Rattle.net_file.specs.Numbering.{numbering, with_name, first_of};
ghost use Rattle.net_plan.specs.Bearers.{device_names, link_names, vl_names};
ghost use Rattle.net_file.specs.declared.refusal.FileRefusal.TheVariants.{OutOfMemory};

use crate::FileRefusal;
use crate::index::next_index;
use indexmap::IndexMap;
use net_plan::{Device, Link, VirtualLink};
use std::alloc::Global;

/// The numbers of things by their names. A name that occurs twice means its first bearer.
#[derive(Drop)]
pub(crate) struct Names<'a> {
    numbers: IndexMap<&'a [u8], u32>,
}

impl<'a> Names<'a> {
    fn new(alloc: Global) -> Names<'a>
        ensures { result.numbers.entries ≡ [] }
    {
        Names {
            numbers: IndexMap::new(alloc),
        }
    }

    // Gives the name this number, unless it has one.
    fn add(&mut self, name: &'a [u8], number: u32) -> Result<(), FileRefusal>
        ensures ok { OnOk result (numbering self.new.numbers ≡ with_name (numbering self.old.numbers) name.now number) }
        ensures err { IfErr result (λ e. e ≡ OutOfMemory) }
    {
        if self.numbers.get(name).is_some() {
            return Ok(());
        }
        match self.numbers.insert(name, number) {
            Ok(_) => Ok(()),
            Err(_) => Err(FileRefusal::OutOfMemory),
        }
    }

    /// The numbers of these devices.
    pub(crate) fn of_devices(alloc: Global, devices: &'a [Device]) -> Result<Names<'a>, FileRefusal>
        ensures ok { IfOk result (λ n. numbering n.numbers ≡ first_of (device_names devices.now)) }
        ensures err { IfErr result (λ e. e ≡ OutOfMemory) }
    {
        let mut names = Names::new(alloc);
        'devices: for (index, device) in devices.iter().enumerate() {
            names.add(device.name.as_slice(), next_index(index)?)?;
        }
        Ok(names)
    }

    /// The numbers of these links.
    pub(crate) fn of_links(alloc: Global, links: &'a [Link]) -> Result<Names<'a>, FileRefusal>
        ensures ok { IfOk result (λ n. numbering n.numbers ≡ first_of (link_names links.now)) }
        ensures err { IfErr result (λ e. e ≡ OutOfMemory) }
    {
        let mut names = Names::new(alloc);
        'links: for (index, link) in links.iter().enumerate() {
            names.add(link.name.as_slice(), next_index(index)?)?;
        }
        Ok(names)
    }

    /// The numbers of these virtual links.
    pub(crate) fn of_vls(alloc: Global, vls: &'a [VirtualLink]) -> Result<Names<'a>, FileRefusal>
        ensures ok { IfOk result (λ n. numbering n.numbers ≡ first_of (vl_names vls.now)) }
        ensures err { IfErr result (λ e. e ≡ OutOfMemory) }
    {
        let mut names = Names::new(alloc);
        'vls: for (index, vl) in vls.iter().enumerate() {
            names.add(vl.name.as_slice(), next_index(index)?)?;
        }
        Ok(names)
    }

    /// The number of the thing of this name. It is None exactly where nothing has it.
    pub(crate) fn number_of(&self, name: &str) -> Option<u32>
        ensures { result ≡ numbering self.now.numbers name.now }
    {
        self.numbers.get(name.as_bytes()).copied()
    }
}
