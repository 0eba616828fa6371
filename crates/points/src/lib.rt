// Points to come back to: up to four, each with a name of eight octets and one image for each cabinet.
#![tactic(auto)]

ghost use Rattle.std.specs.Prelude.{◌≡◌};
ghost use Rattle.points.specs.Points.{no_point, no_points, held_at, point_at, with_place, image_at, is_named, is_free, first_place, place_of, place_for};

use image::Image;

// A point: its name, and its images.
#[derive(Clone, Copy)]
pub struct Point {
    pub name: [u8; 8],
    pub images: [Image; 8],
}

// The four places, each free or with a point.
#[derive(Clone, Copy)]
pub struct Points {
    pub places: [Option<Point>; 4],
}

impl Point {
    // What is read where there is none.
    // Kept: point_at gives it where no point stands, and the theorems of claims read it there.
    fn none() -> Point
        ensures { result ≡ no_point }
    {
        Point {
            name: [0; 8],
            images: [Image::blank(); 8],
        }
    }

    // The image that a point has of cabinet i.
    pub fn image_at(self, i: u8) -> Image
        ensures { result ≡ image_at self i }
    {
        self.images
            .get(i as usize)
            .copied()
            .unwrap_or(Image::blank())
    }
}

impl Points {
    pub fn none() -> Points
        ensures { result ≡ no_points }
    {
        Points { places: [None; 4] }
    }

    // The point at place i, if one stands there.
    pub fn held_at(self, i: u8) -> Option<Point>
        ensures { result ≡ held_at self i }
    {
        self.places.get(i as usize).copied().unwrap_or(None)
    }

    pub fn point_at(self, i: u8) -> Point
        ensures { result ≡ point_at self i }
    {
        self.held_at(i).unwrap_or(Point::none())
    }

    // Puts a point at place i, or frees the place.
    // Kept: a test and a write, as in marks::set_mark.
    pub fn with_point(self, i: u8, p: Option<Point>) -> Points
        ensures { result ≡ with_place self i p }
    {
        let mut points = self;
        if i < 4 {
            points.places[i as usize] = p;
        }
        points
    }

    // The point at place i has this name. The places are lent, here and below, so that they are not copied for the question.
    fn is_named(&self, name: [u8; 8], i: u8) -> bool
        ensures { result ≡ is_named self.now name i }
    {
        match self.places.get(i as usize) {
            Some(Some(point)) => point.name == name,
            _ => false,
        }
    }

    fn is_free(&self, i: u8) -> bool
        ensures { result ≡ is_free self.now i }
    {
        !matches!(self.places.get(i as usize), Some(Some(_)))
    }

    // Where the point of this name is, 4 where there is none.
    // Kept: 4 and no Option, here and in `place_for`: the definitions say 4, and the checks 21 and 23 compare with it.
    pub fn place_of(&self, name: [u8; 8]) -> u8
        ensures { result ≡ place_of self.now name }
    {
        for i in 0..4u8 {
            if self.is_named(name, i) {
                return i;
            }
        }
        4
    }

    // Like place_of but for the test; both are to be searches by `find` (docs/design-left.patch).
    fn free_place(&self) -> u8
        ensures { result ≡ first_place (is_free self.now) }
    {
        for i in 0..4u8 {
            if self.is_free(i) {
                return i;
            }
        }
        4
    }

    // Where a point of this name goes, 4 where every place has another: a name used again keeps its place.
    pub fn place_for(&self, name: [u8; 8]) -> u8
        ensures { result ≡ place_for self.now name }
    {
        let old = self.place_of(name);
        if old < 4 { old } else { self.free_place() }
    }
}
