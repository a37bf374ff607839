// The frames of `frame` for firmware in C and hosts in Rust, by the names of c/drift_frame.h: each export calls the function of its name.
#![tactic(auto)]

ghost use Rattle.std.specs.Prelude.{◌≡◌};
ghost use Rattle.frame.specs.Refusals.{read_refusal};
ghost use Rattle.frame.specs.Fields.{fields_read_refusal, fields_read, fields_write_refusal, fields_written};

// The number that the radio firmware gets for a received frame: 0, or 6 to 11.
#[unsafe(no_mangle)]
pub extern "C" fn drift_frame_check(bytes: &[u8]) -> u8
    ensures { result ≡ read_refusal bytes.now }
{
    frame::drift_frame_check(bytes)
}

// Puts a received frame's 22 fields into the lent numbers: 0, or the refusal 6 to 11 with the numbers as they were.
#[unsafe(no_mangle)]
pub extern "C" fn drift_frame_read(bytes: &[u8], fields: &mut [u16]) -> u8
    ensures number { result ≡ fields_read_refusal bytes.now fields.old }
    ensures fields { fields.new ≡ fields_read bytes.now fields.old }
{
    frame::drift_frame_read(bytes, fields)
}

// Puts the bytes of the frame that 22 fields make into a buffer of 32: 0, or the refusal 6 to 11 with the buffer as it was.
#[unsafe(no_mangle)]
pub extern "C" fn drift_frame_write(fields: &[u16], buffer: &mut [u8]) -> u8
    ensures number { result ≡ fields_write_refusal fields.now buffer.old }
    ensures bytes { buffer.new ≡ fields_written fields.now buffer.old }
{
    frame::drift_frame_write(fields, buffer)
}
