//! What both formats begin with: the front of a file, and the headers of sections.
ghost use Rattle.std.specs.Prelude.{◌≡◌, ◌+◌, ◌≤◌, ◌++◌, length};
ghost use Rattle.tv_container.specs.Bytes.{field_bytes, front_bytes, section_head};

use crate::buffer::Buffer;
use crate::numbers::short_bytes;
use tv_core::P;

impl Buffer {
    /// Takes the first twelve bytes of a file: the magic, the version, and how many sections there
    /// are.
    pub fn push_front(&mut self, magic: u32, version: u32, sections: u32)
        requires { length self.old + 12 ≤ 8192 }
        ensures bytes { self.new ≡ self.old ++ front_bytes magic version sections }
        ensures size { length self.new ≡ length self.old + 12 }
    {
        self.push(&short_bytes(magic));
        self.push(&short_bytes(version));
        self.push(&short_bytes(sections));
    }

    /// Takes the header of a section: its type, and how many bytes its content has.
    pub fn push_section(&mut self, kind: u32, size: u64)
        requires { length self.old + 12 ≤ 8192 }
        ensures bytes { self.new ≡ self.old ++ section_head kind size }
        ensures size { length self.new ≡ length self.old + 12 }
    {
        self.push_pair(kind, size);
    }

    /// Takes the field that section 1 begins with: numbers of eight bytes, and the prime.
    pub fn push_field(&mut self)
        requires { length self.old + 12 ≤ 8192 }
        ensures bytes { self.new ≡ self.old ++ field_bytes }
        ensures size { length self.new ≡ length self.old + 12 }
    {
        self.push_pair(8, P);
    }
}
