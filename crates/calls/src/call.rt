// A call with what is handed to it: values of type V, and for each parameter of a grip an R. A list by parameter has one place to a parameter.
#[derive(Drop)]
pub enum Call<V, R> {
    // coefficients, and the constant
    Bind(Vec<i64>, V),
    // the relation's number
    Unbind(i64),
    // roles
    Grip(Vec<R>),
    // wishes
    Pull(Vec<V>),
    Keep,
    Drop,
}
