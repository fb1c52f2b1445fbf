// The C entries of the static library: each calls controller's function of the same name and states its clauses again.
// include/am33c93a.h is the C side. A slice is a pointer and a length there; a null pointer may come with length 0.
#![tactic(auto)]

ghost use Rattle.chip.specs.Calls as Calls;
ghost use Rattle.chip.specs.Entries.{entered, fresh_entered, lines_entered};
ghost use Rattle.chip.specs.Image.{image_length};
ghost use Rattle.std.specs.Prelude.{◌≡◌};

#[unsafe(no_mangle)]
pub extern "C" fn am33c93a_image_length() -> u32
    ensures { result ≡ image_length }
{
    controller::am33c93a_image_length()
}

#[unsafe(no_mangle)]
pub extern "C" fn am33c93a_fresh(image: &mut [u8]) -> u32
    ensures { (result ≡ (fresh_entered image.old).result) × (image.new ≡ (fresh_entered image.old).image) }
{
    controller::am33c93a_fresh(image)
}

#[unsafe(no_mangle)]
pub extern "C" fn am33c93a_pointer(image: &mut [u8], mark: u32, byte: u32) -> u32
    ensures { (result ≡ (entered (Calls.pointer mark byte) image.old).result)
        × (image.new ≡ (entered (Calls.pointer mark byte) image.old).image) }
{
    controller::am33c93a_pointer(image, mark, byte)
}

#[unsafe(no_mangle)]
pub extern "C" fn am33c93a_auxiliary(image: &mut [u8]) -> u32
    ensures { (result ≡ (entered Calls.auxiliary image.old).result)
        × (image.new ≡ (entered Calls.auxiliary image.old).image) }
{
    controller::am33c93a_auxiliary(image)
}

#[unsafe(no_mangle)]
pub extern "C" fn am33c93a_register(image: &mut [u8], mark: u32, byte: u32) -> u32
    ensures { (result ≡ (entered (Calls.register mark byte) image.old).result)
        × (image.new ≡ (entered (Calls.register mark byte) image.old).image) }
{
    controller::am33c93a_register(image, mark, byte)
}

#[unsafe(no_mangle)]
pub extern "C" fn am33c93a_block(image: &mut [u8], mark: u32, bytes: &mut [u8]) -> u32
    ensures { (result ≡ (entered (Calls.block mark bytes.old) image.old).result)
        × (image.new ≡ (entered (Calls.block mark bytes.old) image.old).image)
        × (bytes.new ≡ (entered (Calls.block mark bytes.old) image.old).lent) }
{
    controller::am33c93a_block(image, mark, bytes)
}

#[unsafe(no_mangle)]
pub extern "C" fn am33c93a_time(image: &mut [u8], units: u32) -> u32
    ensures { (result ≡ (entered (Calls.time units) image.old).result)
        × (image.new ≡ (entered (Calls.time units) image.old).image) }
{
    controller::am33c93a_time(image, units)
}

#[unsafe(no_mangle)]
pub extern "C" fn am33c93a_answer(image: &mut [u8]) -> u32
    ensures { (result ≡ (entered Calls.answer image.old).result)
        × (image.new ≡ (entered Calls.answer image.old).image) }
{
    controller::am33c93a_answer(image)
}

#[unsafe(no_mangle)]
pub extern "C" fn am33c93a_reselection(image: &mut [u8], lines: u32) -> u32
    ensures { (result ≡ (entered (Calls.reselection lines) image.old).result)
        × (image.new ≡ (entered (Calls.reselection lines) image.old).image) }
{
    controller::am33c93a_reselection(image, lines)
}

#[unsafe(no_mangle)]
pub extern "C" fn am33c93a_request(image: &mut [u8], phase: u32, byte: u32, parity: u32) -> u32
    ensures { (result ≡ (entered (Calls.request phase byte parity) image.old).result)
        × (image.new ≡ (entered (Calls.request phase byte parity) image.old).image) }
{
    controller::am33c93a_request(image, phase, byte, parity)
}

#[unsafe(no_mangle)]
pub extern "C" fn am33c93a_free(image: &mut [u8]) -> u32
    ensures { (result ≡ (entered Calls.free image.old).result)
        × (image.new ≡ (entered Calls.free image.old).image) }
{
    controller::am33c93a_free(image)
}

#[unsafe(no_mangle)]
pub extern "C" fn am33c93a_lines(image: &[u8]) -> u32
    ensures { result ≡ lines_entered image.now }
{
    controller::am33c93a_lines(image)
}
