//! Data that is kept as its octets (RFC 3597 3).
ghost use Rattle.std.specs.Prelude.{◌≡◌, ◌↔◌, IsSome, IfSome, IfOk};
ghost use Rattle.dns_message.specs.Data.{CanBeOther};

use crate::rdata::{DataFormat, data_format};
use std::alloc::AllocError;
use std::marker::Model;

/// The most octets of data that a record can have.
const DATA_LIMIT: usize = 65_535;

/// Data of a type and class that has no variant of its own: at most 65,535 octets.
#[derive(Debug, Drop)]
pub struct OtherData {
    type_number: u16,
    class_number: u16,
    octets: Vec<u8>,
}

impl Model for OtherData {
    ghost use Rattle.dns_message.specs.Data.{OtherOctets, CanBeOther};

    ghost Value = { OtherOctets };

    ghost view = { λ other.
        record {
          type_number = other.type_number;
          class_number = other.class_number;
          octets =
              other.octets.items;
        } };

    ghost invariant = { λ other. CanBeOther other.type_number other.class_number
        other.octets.items };
}

impl OtherData {
    /// Data of a type and class, unless that has a variant of its own or there are more than 65,535
    /// octets.
    pub fn new(type_number: u16, class_number: u16, octets: Vec<u8>) -> Option<OtherData>
        ensures made { IsSome result ↔ CanBeOther type_number class_number octets.items }
        ensures is { IfSome result (λ other. other
            ≡ record {
              type_number = type_number;
              class_number = class_number;
              octets =
                  octets.items;
            }) }
    {
        match data_format(type_number, class_number) {
            DataFormat::Other if octets.len() <= DATA_LIMIT => Some(OtherData {
                type_number,
                class_number,
                octets,
            }),
            _ => None,
        }
    }

    /// A copy of the data.
    pub fn try_clone(&self) -> Result<OtherData, AllocError>
        ensures { IfOk result (λ copy. copy ≡ self.now) }
    {
        let octets = Vec::from_slice(*self.octets.allocator(), self.octets.as_slice())?;
        Ok(OtherData {
            type_number: self.type_number,
            class_number: self.class_number,
            octets,
        })
    }

    /// The number of the type of the data.
    pub fn type_number(&self) -> u16
        ensures { result ≡ self.now.type_number }
    {
        self.type_number
    }

    /// The number of the class of the data.
    pub fn class_number(&self) -> u16
        ensures { result ≡ self.now.class_number }
    {
        self.class_number
    }

    /// The octets of the data.
    pub fn octets(&self) -> &[u8]
        ensures octets { result.now ≡ self.now.octets }
        ensures other { CanBeOther self.now.type_number self.now.class_number self.now.octets }
    {
        self.octets.as_slice()
    }
}
