//! Points and vectors of whole numbers.

ghost use Rattle.std.specs.Prelude.{◌≡◌, ◌≤◌, ◌^◌, ◌*◌, ◌*ℤ◌, unsigned_abs};
ghost use Rattle.fixed_geometry.specs.Points.{component_limit};
ghost use Rattle.fixed_geometry.specs.Points.{x_components, y_components, z_components};

/// A point by its coordinates in millimetres, or a vector by its components.
#[derive(Clone, Copy, Debug, PartialEq, Eq)]
pub struct Point {
    pub x: i64,
    pub y: i64,
    pub z: i64,
}

impl Point {
    ghost use Rattle.std.specs.Prelude.{◌≡◌, ◌≤◌, ◌↔◌, IsTrue};
    ghost use Rattle.fixed_geometry.specs.Points as points;
    ghost use Rattle.fixed_geometry.specs.Points.{IsWithin, component_limit, product_limit};

    /// Whether each component is at most `limit` in size.
    pub fn is_within(self, limit: u64) -> bool
        ensures { IsTrue result ↔ IsWithin limit self }
    {
        self.x.unsigned_abs() <= limit
            && self.y.unsigned_abs() <= limit
            && self.z.unsigned_abs() <= limit
    }

    /// The sum of the products of the components.
    pub fn dot(self, other: Point) -> i128
        requires left { IsWithin component_limit self }
        requires right { IsWithin component_limit other }
        ensures value { result ≡ points.dot self other }
        ensures bound { unsigned_abs result ≤ product_limit }
    {
        product(self.x, other.x) + product(self.y, other.y) + product(self.z, other.z)
    }

    /// The sum of the squares of the components: the square of the vector's length.
    pub fn norm(self) -> u128
        requires { IsWithin component_limit self }
        ensures value { result ≡ points.norm self }
        ensures bound { result ≤ product_limit }
    {
        square(self.x) + square(self.y) + square(self.z)
    }

    /// The vector from `other` to this point.
    pub fn minus(self, other: Point) -> Point
        requires left { IsWithin component_limit self }
        requires right { IsWithin component_limit other }
        ensures { result ≡ points.difference self other }
    {
        Point {
            x: self.x - other.x,
            y: self.y - other.y,
            z: self.z - other.z,
        }
    }
}

/// The vectors of the x, of the y and of the z components of three vectors: what turns rows into
/// columns.
pub fn transposed(a: Point, b: Point, c: Point) -> (Point, Point, Point)
    ensures x { result.0 ≡ x_components a b c }
    ensures y { result.1 ≡ y_components a b c }
    ensures z { result.2 ≡ z_components a b c }
{
    let x = Point {
        x: a.x,
        y: b.x,
        z: c.x,
    };
    let y = Point {
        x: a.y,
        y: b.y,
        z: c.y,
    };
    let z = Point {
        x: a.z,
        y: b.z,
        z: c.z,
    };
    (x, y, z)
}

fn product(a: i64, b: i64) -> i128
    ensures value { result ≡ a *ℤ b }
    ensures size { unsigned_abs result ≡ unsigned_abs a * unsigned_abs b }
{
    i128::from(a) * i128::from(b)
}

fn square(a: i64) -> u128
    requires { unsigned_abs a ≤ component_limit }
    ensures value { result ≡ unsigned_abs a * unsigned_abs a }
    ensures bound { result ≤ 2 ^ 122 }
{
    let size = u128::from(a.unsigned_abs());
    size * size
}
