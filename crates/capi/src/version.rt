// Which interface this is: 0.9.0, as LENTHUC_VERSION in the header.
ghost use Rattle.std.specs.Prelude.{◌≡◌};

#[unsafe(no_mangle)]
pub extern "C" fn lenthuc_version() -> u32
    ensures { result ≡ 900 }
{
    900
}
