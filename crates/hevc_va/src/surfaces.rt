//! Pictures by their surfaces: `VAPictureHEVC`.
ghost use Rattle.std.specs.Prelude.{◌≡◌, None, Some};
ghost use Rattle.std.specs.List.{find, list_all};
ghost use Rattle.std.specs.Option.{option_copied};
ghost use Rattle.hevc_va.specs.Surfaces.{has_number, has_surface, picture_at};
ghost use Rattle.hevc_va.specs.Surfaces.{surface_of};

/// `VAPictureHEVC`: a picture that is decoded or referred to.
#[repr(C)]
#[derive(Clone, Copy, Default)]
pub struct VaPictureHevc {
    /// Its surface; `VA_INVALID_SURFACE`, 2^32 - 1, in a place without a picture.
    pub picture_id: u32,
    /// PicOrderCntVal (8.3.1).
    pub pic_order_cnt: i32,
    /// `VA_PICTURE_HEVC_*`, from bit 0 on. A picture is never a field: SEI messages aren't read.
    pub flags: u32,
    /// Zeros.
    pub va_reserved: [u32; 4],
}

const _: () = prove!(size_of::<VaPictureHevc>() == 28);

/// The surface that a stored picture was decoded into.
#[derive(Clone, Copy, Drop)]
pub struct VaSurface {
    /// The picture's number.
    pub number: u64,
    /// The surface.
    pub surface: u32,
}

/// The surfaces of a picture and of the stored ones.
#[derive(Clone, Copy)]
pub struct VaSurfaces<'a> {
    /// The surface that the picture is decoded into.
    pub current: u32,
    /// Those of stored pictures. The first with a picture's number is that picture's.
    pub stored: &'a [VaSurface],
}

/// `VA_INVALID_SURFACE`.
pub(crate) const NO_SURFACE: u32 = 0xFFFF_FFFF;

/// A picture with this surface, order count and flags.
pub(crate) fn picture_at(picture_id: u32, pic_order_cnt: i32, flags: u32) -> VaPictureHevc
    ensures { result ≡ picture_at picture_id pic_order_cnt flags }
{
    VaPictureHevc {
        picture_id,
        pic_order_cnt,
        flags,
        va_reserved: [0; 4],
    }
}

/// Whether it is the surface of the picture of this number.
fn has_number(surface: &VaSurface, number: u64) -> bool
    ensures { result ≡ has_number number surface.now }
{
    surface.number == number
}

/// The first surface with this number.
fn find_surface(surfaces: &[VaSurface], number: u64) -> Option<&VaSurface>
    ensures { option_copied result ≡ find (has_number number) surfaces.now }
{
    surfaces.iter().find(|surface| has_number(surface, number))
}

/// The surface of the picture of this number.
pub(crate) fn surface_of(surfaces: &[VaSurface], number: u64) -> Option<u32>
    ensures { result ≡ surface_of surfaces.now number }
{
    match find_surface(surfaces, number) {
        Some(found) => Some(found.surface),
        None => None,
    }
}

/// Whether the surface of each picture was given.
pub(crate) fn have_surfaces(surfaces: &[VaSurface], numbers: &[u64]) -> bool
    ensures { result ≡ list_all (has_surface surfaces.now) numbers.now }
{
    numbers
        .iter()
        .all(|number| surface_of(surfaces, *number).is_some())
}
