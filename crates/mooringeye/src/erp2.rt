// ERP2 telegrams, read and built.
ghost use Rattle.std.specs.Prelude.{◌≡◌};
ghost use Rattle.c_erp2.specs.Calls.{read_call, build_call};

// Reads a length byte and Data_PL into the 276 bytes of its fields and its two IDs.
#[unsafe(no_mangle)]
pub extern "C" fn mooringeye_erp2_read(
    bytes: &[u8],
    fields: &mut [u8],
    originator: &mut u64,
    destination: &mut u32,
) -> u8
    ensures { record {
      number = result;
      fields = fields.new;
      originator = originator.new;
      destination = destination.new;
    }
        ≡ read_call bytes.now fields.old originator.old destination.old }
{
    c_erp2::read(bytes, fields, originator, destination)
}

// Builds the telegram of these fields and IDs into `out`.
#[unsafe(no_mangle)]
pub extern "C" fn mooringeye_erp2_build(
    fields: &[u8],
    originator: u64,
    destination: u32,
    out: &mut [u8],
    length: &mut usize,
) -> u8
    ensures { record { number = result; len = length.new; output = out.new }
        ≡ build_call fields.now originator destination length.old out.old }
{
    c_erp2::build(fields, originator, destination, out, length)
}
