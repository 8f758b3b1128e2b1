// Where the rates are in a file, as a host is told.
ghost use Rattle.std.specs.Prelude.{◌≡◌, take, drop};
ghost use Rattle.model.specs.Refusals.{rates_part};
ghost use Rattle.model.specs.Promises.{PartCall};
ghost use Rattle.flat.specs.Part.{host_part};

use reader::file::read;

// `length` bytes of the file, from `offset` on.
#[repr(C)]
#[derive(Clone, Copy)]
pub struct HostPart {
    pub offset: usize,
    pub length: usize,
}

// Where the rates are in the file: n × 120 bytes, or n × 240 of rates of four bytes; 0 and 0 where the file is refused. Only a refused
// file has an empty part.
pub fn rates_place(file: &[u8]) -> HostPart
    ensures value { result ≡ host_part file.now }
    ensures part { take result.length (drop result.offset file.now) ≡ rates_part file.now }
    ensures call { PartCall file.now }
{
    match read(file) {
        Ok(reading) => HostPart {
            offset: reading.rates_at,
            length: reading.rates.len(),
        },
        Err(_) => HostPart {
            offset: 0,
            length: 0,
        },
    }
}
