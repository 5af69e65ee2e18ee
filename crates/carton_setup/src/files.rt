ghost use Rattle.std.specs.Prelude.{◌≡◌};
ghost use Rattle.carton_setup.specs.Files.{file_at};

use carton_base::Listed;

/// The bytes of the file at a place; none where there is no such file.
pub fn bytes_at(files: &[Listed<u8>], place: usize) -> &[u8]
    ensures { result.now ≡ file_at place files.now }
{
    match files.get(place) {
        Some(file) => file.as_slice(),
        None => &[],
    }
}
