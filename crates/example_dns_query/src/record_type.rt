//! Types of records.
ghost use Rattle.std.specs.Prelude.{◌≡◌};
ghost use Rattle.example_dns_query.specs.Message.{code_of};

/// A type of record that a query may ask for.
#[derive(Clone, Copy, PartialEq, Debug)]
pub enum RecordType {
    A,
    Ns,
    Cname,
    Soa,
    Ptr,
    Mx,
    Txt,
    Aaaa,
}

/// The number that stands for the type on the wire.
pub fn code(record_type: RecordType) -> u16
    ensures { result ≡ code_of record_type }
{
    match record_type {
        RecordType::A => 1,
        RecordType::Ns => 2,
        RecordType::Cname => 5,
        RecordType::Soa => 6,
        RecordType::Ptr => 12,
        RecordType::Mx => 15,
        RecordType::Txt => 16,
        RecordType::Aaaa => 28,
    }
}
